//! What belongs to each planned instance: its features, and the places of what it depends on.
ghost use Rattle.std.specs.Prelude.{◌≡◌, ◌∷◌, [], ℕ, List, IfOk, OnOk, length, map, option_map};
ghost use Rattle.std.specs.Prelude.{slice_get};
ghost use Rattle.vk_spec.specs.Settings as plain;
ghost use Rattle.vk_base.specs.FeatureViews.{feature_view};
ghost use Rattle.vk_model.specs.FactViews.{fact_view};
ghost use Rattle.vk_model.specs.SettingViews.{instance_view};
ghost use Rattle.vk_planset.specs.Members.{HasMore};
ghost use Rattle.vk_planset.specs.Places.{link_of, place_in, place_of};
ghost use Rattle.vk_planset.specs.Seats.{AreSeats, HaveMore, at_given, at_link, at_place};
ghost use Rattle.vk_planset.specs.Seats.{feature_of, features_in, listed, listed_in};
ghost use Rattle.vk_planset.specs.Seats.{seated_features, seated_needs};

use crate::orders::places_of;
use indexmap::IndexSet;
use std::alloc::Global;
use vk_base::{FeatureName, Instance, Memory};
use vk_model::Fact;

/// The features of a planned instance, but for `default`, and the places of what it depends on, as
/// they come: the same may stand there several times.
#[derive(Drop)]
pub(crate) struct Seat {
    pub(crate) features: Vec<FeatureName>,
    pub(crate) needs: Vec<u32>,
}

impl Seat {
    // Nothing yet.
    fn new(alloc: Global) -> Seat
        ensures features { features_in result ≡ [] }
        ensures needs { result.needs.items ≡ [] }
    {
        Seat {
            features: Vec::new(alloc),
            needs: Vec::new(alloc),
        }
    }

    // One feature more, unless it is `default`.
    fn put_feature(&mut self, feature: &FeatureName) -> Result<(), Memory>
        ensures features { OnOk result (HasMore (features_in self.old)
            (listed (feature_view feature.now)) (features_in self.new)) }
        ensures needs { self.new.needs.items ≡ self.old.needs.items }
    {
        if *feature == FeatureName::Default {
            return Ok(());
        }
        self.features.push(feature.clone()?)?;
        Ok(())
    }

    // One need more.
    fn put_need(&mut self, place: u32) -> Result<(), Memory>
        ensures needs { OnOk result
            (HasMore self.old.needs.items (place ∷ []) self.new.needs.items) }
        ensures features { self.new.features.items ≡ self.old.features.items }
    {
        self.needs.push(place)?;
        Ok(())
    }
}

// Puts a feature on the seat of a place, if there is one.
fn put_feature(seats: &mut [Seat], place: u32, feature: &FeatureName) -> Result<(), Memory>
    ensures { OnOk result (HaveMore (λ p. at_place p place (listed (feature_view feature.now)))
        (λ p. []) seats.old seats.new) }
{
    let place = place as usize;
    if place < seats.len() {
        return seats[place].put_feature(feature);
    }
    Ok(())
}

// Puts a need on the seat of a place, if there is one.
fn put_need(seats: &mut [Seat], place: u32, need: u32) -> Result<(), Memory>
    ensures { OnOk result (HaveMore (λ p. []) (λ p. at_place p place (need ∷ [])) seats.old
        seats.new) }
{
    let place = place as usize;
    if place < seats.len() {
        return seats[place].put_need(need);
    }
    Ok(())
}

// The feature of a need.
fn feature_of(fact: &Fact) -> Option<&FeatureName>
    ensures { option_map (λ f. feature_view f.now) result ≡ feature_of (fact_view fact.now) }
{
    match fact {
        Fact::Need { feature, .. } => Some(feature),
        Fact::Floor { .. } => None,
        Fact::Visit { .. } => None,
    }
}

// That many seats, with nothing yet.
fn seats_for(alloc: Global, count: usize) -> Result<Vec<Seat>, Memory>
    ensures { IfOk result (λ seats. AreSeats count (λ p. []) (λ p. []) seats.items) }
{
    let mut seats = Vec::with_capacity(alloc, count)?;
    for _ in 0..count {
        seats.push(Seat::new(alloc))?;
    }
    Ok(seats)
}

// Puts the feature of a need on the seat of a place.
fn seat_feature(seats: &mut [Seat], place: u32, fact: &Fact) -> Result<(), Memory>
    ensures { OnOk result (HaveMore
        (λ p. at_place p place (listed_in (feature_of (fact_view fact.now)))) (λ p. [])
        seats.old seats.new) }
{
    match feature_of(fact) {
        Some(feature) => put_feature(seats, place, feature),
        None => Ok(()),
    }
}

// Puts the feature of a need on the seat of its place.
fn seat_need(seats: &mut [Seat], place: Option<u32>, fact: &Fact) -> Result<(), Memory>
    ensures { OnOk result (HaveMore
        (λ p. at_given p place (listed_in (feature_of (fact_view fact.now)))) (λ p. [])
        seats.old seats.new) }
{
    match place {
        Some(place) => seat_feature(seats, place, fact),
        None => Ok(()),
    }
}

// The place that a table has for a need.
fn place_in(places: &[Option<u32>], need: usize) -> Option<u32>
    ensures { result ≡ place_in (slice_get places.now need) }
{
    *places.get(need)?
}

// Puts the features of needs on the seats of their places, which a table has.
fn seat_needs(seats: &mut [Seat], needs: &[Fact], places: &[Option<u32>]) -> Result<(), Memory>
    ensures { OnOk result ((count : ℕ) (order : List plain.Instance)
        → places.now ≡ map (place_of order) (map fact_view needs.now)
        → AreSeats count (λ p. []) (λ p. []) seats.old
        → AreSeats count (seated_features order (map fact_view needs.now)) (λ p. []) seats.new) }
{
    for (n, fact) in needs.iter().enumerate() {
        seat_need(seats, place_in(places, n), fact)?;
    }
    Ok(())
}

// The two instances that an edge joins, if they are two.
fn link_of(places: &[Option<u32>], edge: &(usize, usize)) -> Option<(u32, u32)>
    ensures { result ≡ link_of places.now edge.now }
{
    let from = place_in(places, edge.0)?;
    let to = place_in(places, edge.1)?;
    if from == to {
        return None;
    }
    Some((from, to))
}

// Puts what an edge leads to on the seat that it comes from.
fn seat_edge(
    seats: &mut [Seat],
    places: &[Option<u32>],
    edge: &(usize, usize),
) -> Result<(), Memory>
    ensures { OnOk result (HaveMore (λ p. []) (λ p. at_link p (link_of places.now edge.now))
        seats.old seats.new) }
{
    match link_of(places, edge) {
        Some((place, need)) => put_need(seats, place, need),
        None => Ok(()),
    }
}

// Puts what edges lead to on the seats that they come from.
fn seat_edges(
    seats: &mut [Seat],
    places: &[Option<u32>],
    edges: &[(usize, usize)],
) -> Result<(), Memory>
    ensures { OnOk result ((count : ℕ) (features : ℕ → List (List ℕ)) →
        AreSeats count features (λ p. []) seats.old →
        AreSeats count features (seated_needs places.now edges.now) seats.new) }
{
    for edge in edges {
        seat_edge(seats, places, edge)?;
    }
    Ok(())
}

// Puts the features of needs, and what the edges between the needs lead to, on the seats.
fn fill(
    seats: &mut [Seat],
    needs: &[Fact],
    places: &[Option<u32>],
    edges: &[(usize, usize)],
) -> Result<(), Memory>
    ensures { OnOk result ((count : ℕ) (order : List plain.Instance)
        → places.now ≡ map (place_of order) (map fact_view needs.now)
        → AreSeats count (λ p. []) (λ p. []) seats.old
        → AreSeats count (seated_features order (map fact_view needs.now))
        (seated_needs places.now edges.now) seats.new) }
{
    seat_needs(seats, needs, places)?;
    seat_edges(seats, places, edges)
}

/// The seats of instances, which stand in this order, with the features of the needs and with what
/// the edges between the needs lead to.
pub(crate) fn seats_of(
    alloc: Global,
    order: &IndexSet<Instance>,
    needs: &[Fact],
    edges: &[(usize, usize)],
) -> Result<Vec<Seat>, Memory>
    ensures { IfOk result (λ seats. AreSeats (length order.now.keys)
        (seated_features (map instance_view order.now.keys) (map fact_view needs.now))
        (seated_needs (map (place_of (map instance_view order.now.keys))
        (map fact_view needs.now)) edges.now) seats.items) }
{
    let places = places_of(alloc, order, needs)?;
    let mut seats = seats_for(alloc, order.len())?;
    fill(&mut seats, needs, &places, edges)?;
    Ok(seats)
}
