//! Components: places that need each other in a circle are in one.
ghost use Rattle.std.specs.Prelude.{◌≡◌, ◌+◌, ◌<◌, ◌≤◌, ◌^◌, ℕ, true, IfOk, OnOk, length};
ghost use Rattle.std.specs.List.{All};
ghost use Rattle.vk_order.specs.Needs.{ArePlaces, AreUsers, listed_at, needs_of};
ghost use Rattle.vk_order.specs.Components.{AreComponents, AreLower, IsClimb, StandsAbove};
ghost use Rattle.vk_order.specs.Components.{component_at, steps_of};

use crate::users::{needs_at, users_at};
use crate::ways::{reach, reach_one};
use std::alloc::{AllocError, Global};
use vk_base::List;
use vk_model::Item;

/// All places, as they are gone through upwards, from what is needed to who needs it.
#[derive(Drop)]
struct Climb {
    /// How many users of each place haven't been looked at.
    left: Vec<usize>,
    seen: Vec<bool>,
    /// The way up: each place is a user of the one before it.
    path: Vec<u32>,
    /// The places above which nothing is left, each behind all that is above it alone.
    done: Vec<u32>,
}

// How many users each place has.
fn counts_of(alloc: Global, users: &[List<u32>]) -> Result<Vec<usize>, AllocError>
    ensures { IfOk result (λ counts. length counts.items ≡ length users.now) }
{
    let mut counts = Vec::with_capacity(alloc, users.len())?;
    for place in 0..users.len() {
        counts.push(users_at(users, place).len())?;
    }
    Ok(counts)
}

impl Climb {
    // Nothing is seen yet.
    fn new(alloc: Global, users: &[List<u32>]) -> Result<Climb, AllocError>
        ensures { IfOk result (IsClimb (length users.now)) }
    {
        Ok(Climb {
            left: counts_of(alloc, users)?,
            seen: vec![in alloc; false; users.len()]?,
            path: Vec::new(alloc),
            done: Vec::new(alloc),
        })
    }

    // Goes on to a place, unless it was seen.
    fn enter(&mut self, count: usize, place: u32) -> Result<(), AllocError>
        requires within { place < count }
        requires climb { IsClimb count self.old }
        ensures climb { OnOk result (IsClimb count self.new) }
        ensures steps { OnOk result (steps_of self.new ≤ steps_of self.old + 1) }
    {
        if self.seen[place as usize] {
            return Ok(());
        }
        self.seen[place as usize] = true;
        self.path.push(place)?;
        Ok(())
    }

    // Goes on from a place that was the last of the path: to one more of its users, or back.
    fn go_on(&mut self, users: &[List<u32>], place: u32) -> Result<(), AllocError>
        requires within { place < length users.now }
        requires users { (n : ℕ) → All (λ k. k < length users.now) (listed_at users.now n) }
        requires climb { IsClimb (length users.now) self.old }
        ensures climb { OnOk result (IsClimb (length users.now) self.new) }
        ensures steps { OnOk result (steps_of self.new < steps_of self.old + 1) }
    {
        let left = self.left[place as usize];
        if left == 0 {
            self.done.push(place)?;
            return Ok(());
        }
        self.left[place as usize] = left - 1;
        self.path.push(place)?;
        match users_at(users, place as usize).get(left - 1) {
            Some(user) => self.enter(users.len(), *user),
            None => Ok(()),
        }
    }

    // Goes on until the path is gone back.
    fn climb(&mut self, users: &[List<u32>]) -> Result<(), AllocError>
        requires users { (n : ℕ) → All (λ k. k < length users.now) (listed_at users.now n) }
        requires climb { IsClimb (length users.now) self.old }
        ensures climb { OnOk result (IsClimb (length users.now) self.new) }
    {
        while let Some(place) = self.path.pop() {
            self.go_on(users, place)?;
        }
        Ok(())
    }
}

// The places, each behind all that is above it alone.
fn done_of(alloc: Global, users: &[List<u32>]) -> Result<Vec<u32>, AllocError>
    requires small { length users.now < 2 ^ 32 }
    requires users { (n : ℕ) → All (λ k. k < length users.now) (listed_at users.now n) }
    ensures { IfOk result (λ done. All (λ k. k < length users.now) done.items) }
{
    let mut climb = Climb::new(alloc, users)?;
    for place in 0..users.len() {
        climb.enter(users.len(), place as u32)?;
        climb.climb(users)?;
    }
    let Climb { done, .. } = climb;
    Ok(done)
}

// Gives this number to a place and to all that is needed by way of it, but not to what has one.
fn flood(
    alloc: Global,
    items: &[Item],
    place: u32,
    number: u32,
    components: &mut [Option<u32>],
) -> Result<(), AllocError>
    requires within { place < length items.now }
    requires places { ArePlaces (needs_of items.now) }
    requires long { length components.old ≡ length items.now }
    ensures { OnOk result (length components.new ≡ length items.now) }
{
    let mut reached = Vec::new(alloc);
    reach_one(place, number, components, &mut reached)?;
    while let Some(place) = reached.pop() {
        reach(
            needs_at(items, place as usize),
            number,
            components,
            &mut reached,
        )?;
    }
    Ok(())
}

// Numbers, from the last of the places to the first.
fn numbered(
    alloc: Global,
    items: &[Item],
    mut places: Vec<u32>,
) -> Result<Vec<Option<u32>>, AllocError>
    requires within { All (λ k. k < length items.now) places.items }
    requires places { ArePlaces (needs_of items.now) }
    ensures { IfOk result (λ components. length components.items ≡ length items.now) }
{
    let mut components = vec![in alloc; None; items.len()]?;
    let mut number: u32 = 0;
    while let Some(place) = places.pop() {
        number = number.saturating_add(1);
        flood(alloc, items, place, number, &mut components)?;
    }
    Ok(components)
}

// The number of a place's component, 0 where it has none.
fn component_at(components: &[Option<u32>], place: u32) -> u32
    requires { place < length components.now }
    ensures { result ≡ component_at components.now place }
{
    components[place as usize].unwrap_or(0)
}

// Whether all of these places are in components with numbers below this.
fn are_lower(places: &[u32], components: &[Option<u32>], limit: u64) -> bool
    requires { All (λ k. k < length components.now) places.now }
    ensures { result ≡ true → AreLower places.now components.now limit }
{
    for place in places {
        if u64::from(component_at(components, *place)) >= limit {
            return false;
        }
    }
    true
}

// Whether nothing that a place needs is in a higher component.
fn fit(items: &[Item], components: &[Option<u32>]) -> bool
    requires small { length items.now < 2 ^ 32 }
    requires places { ArePlaces (needs_of items.now) }
    requires long { length components.now ≡ length items.now }
    ensures { result ≡ true → AreComponents (needs_of items.now) components.now }
{
    for place in 0..items.len() {
        let own = u64::from(component_at(components, place as u32));
        if !are_lower(needs_at(items, place), components, own + 1) {
            return false;
        }
    }
    true
}

/// Numbers that never fall from what is needed to who needs it. What needs nothing of its own
/// number is on no cycle. All else is on one: that makes the search short, and no answer rests on
/// it.
pub(crate) fn components_of(
    alloc: Global,
    items: &[Item],
    users: &[List<u32>],
) -> Result<Vec<Option<u32>>, AllocError>
    requires small { length items.now < 2 ^ 32 }
    requires places { ArePlaces (needs_of items.now) }
    requires users { AreUsers (needs_of items.now) users.now }
    ensures { IfOk result (λ components. AreComponents (needs_of items.now) components.items) }
{
    let components = numbered(alloc, items, done_of(alloc, users)?)?;
    if fit(items, &components) {
        return Ok(components);
    }
    vec![in alloc; None; items.len()]
}

/// Whether all that a place needs is in lower components; then it is on no cycle.
pub(crate) fn stands_above(items: &[Item], components: &[Option<u32>], place: u32) -> bool
    requires within { place < length items.now }
    requires places { ArePlaces (needs_of items.now) }
    requires long { length components.now ≡ length items.now }
    ensures { result ≡ true → StandsAbove (needs_of items.now) components.now place }
{
    let own = u64::from(component_at(components, place));
    are_lower(needs_at(items, place as usize), components, own)
}
