//! The planned instances in order, and the places of needs among them.
ghost use Rattle.std.specs.Prelude.{◌≡◌, ◌∷◌, [], IfOk, OnOk, filter, flat_map, map};
ghost use Rattle.std.specs.Prelude.{option_and_then, option_map, position};
ghost use Rattle.std.specs.Option.{option_to_list};
ghost use Rattle.indexmap.specs.IndexSet.{insert_key};
ghost use Rattle.vk_resolution.specs.Planning.{needed_in};
ghost use Rattle.vk_model.specs.FactViews.{fact_view};
ghost use Rattle.vk_model.specs.SettingViews.{instance_view};
ghost use Rattle.vk_root.specs.Offs.{is_same};
ghost use Rattle.vk_planset.specs.Members.{HasMore, HaveSame};
ghost use Rattle.vk_planset.specs.Places.{chosen_in, fitting, has_choice, place_of, seat_order};

use indexmap::IndexSet;
use std::alloc::Global;
use vk_base::{Instance, Memory};
use vk_choices::Choices;
use vk_model::{Fact, Who};

// The instance of a need.
fn instance_of(fact: &Fact) -> Option<&Instance>
    ensures { option_to_list (option_map (λ i. instance_view i.now) result)
        ≡ needed_in (fact_view fact.now) }
{
    match fact {
        Fact::Need {
            who: Who::Inst(inst),
            ..
        } => Some(inst),
        Fact::Need {
            who: Who::Root(_),
            ..
        } => None,
        Fact::Floor { .. } => None,
        Fact::Visit { .. } => None,
    }
}

// Whether the port of an instance has a choice.
fn has_choice(choices: &Choices, inst: &Instance) -> bool
    ensures { result ≡ has_choice choices.now.ports.entries (instance_view inst.now) }
{
    choices.of(&inst.port).is_some()
}

// The instance, if its port has a choice.
fn if_chosen<'a>(choices: &Choices, inst: &'a Instance) -> Option<&'a Instance>
    ensures { option_to_list (option_map (λ i. instance_view i.now) result)
        ≡ filter (has_choice choices.now.ports.entries) (instance_view inst.now ∷ []) }
{
    if has_choice(choices, inst) {
        return Some(inst);
    }
    None
}

// The instance of a need, if its port has a choice.
fn chosen_in<'a>(choices: &Choices, fact: &'a Fact) -> Option<&'a Instance>
    ensures { option_to_list (option_map (λ i. instance_view i.now) result)
        ≡ chosen_in choices.now.ports.entries (fact_view fact.now) }
{
    match instance_of(fact) {
        Some(inst) => if_chosen(choices, inst),
        None => None,
    }
}

// Puts an instance into a set, unless it is there.
fn put(set: &mut IndexSet<Instance>, inst: &Instance) -> Result<(), Memory>
    ensures { OnOk result (set.new.keys ≡ insert_key is_same set.old.keys inst.now) }
{
    if set.contains(inst) {
        return Ok(());
    }
    set.insert(inst.clone()?)?;
    Ok(())
}

// Puts the instance of a need into a set, if its port has a choice.
fn put_chosen(set: &mut IndexSet<Instance>, choices: &Choices, fact: &Fact) -> Result<(), Memory>
    ensures { OnOk result (HasMore (map instance_view set.old.keys)
        (chosen_in choices.now.ports.entries (fact_view fact.now))
        (map instance_view set.new.keys)) }
{
    match chosen_in(choices, fact) {
        Some(inst) => put(set, inst),
        None => Ok(()),
    }
}

// The instances of needs whose ports have choices.
fn instances_of(
    alloc: Global,
    choices: &Choices,
    needs: &[Fact],
) -> Result<IndexSet<Instance>, Memory>
    ensures { IfOk result (λ set. HaveSame (map instance_view set.keys)
        (flat_map (chosen_in choices.now.ports.entries) (map fact_view needs.now))) }
{
    let mut set = IndexSet::new(alloc);
    for fact in needs {
        put_chosen(&mut set, choices, fact)?;
    }
    Ok(set)
}

/// The instances of needs whose ports have choices, in order.
pub(crate) fn order_of(
    alloc: Global,
    choices: &Choices,
    needs: &[Fact],
) -> Result<IndexSet<Instance>, Memory>
    ensures { IfOk result (λ order. map instance_view order.keys
        ≡ seat_order choices.now.ports.entries (map fact_view needs.now)) }
{
    let mut order = instances_of(alloc, choices, needs)?;
    order.sort_unstable()?;
    Ok(order)
}

// The place, where it fits.
fn fitting(place: usize) -> Option<u32>
    ensures { result ≡ fitting place }
{
    if place < 4_294_967_296 {
        return Some(place as u32);
    }
    None
}

// The place of an instance in the order.
fn place_in(order: &IndexSet<Instance>, inst: &Instance) -> Option<u32>
    ensures { result ≡ option_and_then fitting (position (is_same inst.now) order.now.keys) }
{
    fitting(order.get_index_of(inst)?)
}

/// The place of a need's instance in the order.
pub(crate) fn place_of(order: &IndexSet<Instance>, fact: &Fact) -> Option<u32>
    ensures { result ≡ place_of (map instance_view order.now.keys) (fact_view fact.now) }
{
    match instance_of(fact) {
        Some(inst) => place_in(order, inst),
        None => None,
    }
}

/// For each need the place of its instance in the order.
pub(crate) fn places_of(
    alloc: Global,
    order: &IndexSet<Instance>,
    needs: &[Fact],
) -> Result<Vec<Option<u32>>, Memory>
    ensures { IfOk result (λ places. places.items
        ≡ map (place_of (map instance_view order.now.keys)) (map fact_view needs.now)) }
{
    let mut places = Vec::with_capacity(alloc, needs.len())?;
    for fact in needs {
        places.push(place_of(order, fact))?;
    }
    Ok(places)
}
