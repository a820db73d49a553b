//! The items of planned instances.
ghost use Rattle.std.specs.Prelude.{◌≡◌, ◌++◌, IfOk, OnOk, bytes_eq, filter, map, not};
ghost use Rattle.std.specs.Prelude.{slice_get};
ghost use Rattle.std.specs.List.Sorted.{IsStrictlySortedBy};
ghost use Rattle.vk_spec.specs.Manifests.{core};
ghost use Rattle.vk_resolution.specs.Keys.{in_order};
ghost use Rattle.vk_resolution.specs.Planning.{feature_key};
ghost use Rattle.vk_base.specs.FeatureViews.{feature_view};
ghost use Rattle.vk_model.specs.FaultViews.{item_view};
ghost use Rattle.vk_model.specs.SettingViews.{instance_view};
ghost use Rattle.vk_planset.specs.Members.{HaveSame, feature_cmp, number_key};
ghost use Rattle.vk_planset.specs.Items.{at_end, made, made_all, made_of};

use crate::seats::Seat;
use indexmap::IndexSet;
use std::alloc::Global;
use vk_base::{FeatureName, Instance, List, Memory};
use vk_choices::{Choice, Choices};
use vk_model::Item;

// Features by their bytes, each once.
fn by_bytes(alloc: Global, features: &[FeatureName]) -> Result<Vec<FeatureName>, Memory>
    ensures ordered { IfOk result (λ sorted. IsStrictlySortedBy feature_cmp sorted.items) }
    ensures same { IfOk result (λ sorted. HaveSame (map feature_view sorted.items)
        (map feature_view features.now)) }
{
    let mut sorted = Vec::with_capacity(alloc, features.len())?;
    for feature in features {
        sorted.push(feature.clone()?)?;
    }
    sorted.sort_unstable();
    sorted.dedup();
    Ok(sorted)
}

// Pushes `core`, if it is there.
fn push_core(features: &[FeatureName], list: &mut List<FeatureName>) -> Result<(), Memory>
    ensures { OnOk result (map feature_view list.new ≡ map feature_view list.old
        ++ filter (λ f. bytes_eq f core) (map feature_view features.now)) }
{
    for feature in features {
        if *feature == FeatureName::Core {
            list.push(feature.clone()?)?;
        }
    }
    Ok(())
}

// Pushes the others.
fn push_others(features: &[FeatureName], list: &mut List<FeatureName>) -> Result<(), Memory>
    ensures { OnOk result (map feature_view list.new ≡ map feature_view list.old
        ++ filter (λ f. not (bytes_eq f core)) (map feature_view features.now)) }
{
    for feature in features {
        if *feature != FeatureName::Core {
            list.push(feature.clone()?)?;
        }
    }
    Ok(())
}

// The features as they are listed, `core` first and then the others by their bytes.
fn feature_list(alloc: Global, features: &[FeatureName]) -> Result<List<FeatureName>, Memory>
    ensures { IfOk result (λ list. map feature_view list
        ≡ in_order feature_key (map feature_view features.now)) }
{
    let features = by_bytes(alloc, features)?;
    let sorted = features.as_slice();
    let mut list = List::with_capacity(alloc, sorted.len())?;
    push_core(sorted, &mut list)?;
    push_others(sorted, &mut list)?;
    Ok(list)
}

// The places as they are listed: in order, each once.
fn place_list(alloc: Global, places: &[u32]) -> Result<List<u32>, Memory>
    ensures { IfOk result (λ list. list ≡ in_order number_key places.now) }
{
    let mut list = Vec::with_capacity(alloc, places.len())?;
    list.extend_from_slice(places)?;
    list.sort_unstable();
    list.dedup();
    Ok(List::from_vec(list))
}

// The item of an instance with this choice.
fn item_of(alloc: Global, inst: &Instance, seat: &Seat, choice: &Choice) -> Result<Item, Memory>
    ensures { IfOk result (λ item. item_view item
        ≡ made (instance_view inst.now) seat.now choice.now) }
{
    Ok(Item {
        features: feature_list(alloc, &seat.features)?,
        needs: place_list(alloc, &seat.needs)?,
        inst: inst.clone()?,
        version: choice.version.clone()?,
        line: choice.line,
    })
}

// Pushes the item of an instance, if its port has a choice.
fn push_item(
    alloc: Global,
    choices: &Choices,
    inst: &Instance,
    seat: &Seat,
    items: &mut List<Item>,
) -> Result<(), Memory>
    ensures { OnOk result (map item_view items.new ≡ map item_view items.old
        ++ made_of choices.now.ports.entries (instance_view inst.now, seat.now)) }
{
    if let Some(choice) = choices.of(&inst.port) {
        items.push(item_of(alloc, inst, seat, choice)?)?;
    }
    Ok(())
}

// Pushes the item of an instance with the seat of a place, if there is one.
fn push_at(
    alloc: Global,
    choices: &Choices,
    inst: &Instance,
    seats: &[Seat],
    place: usize,
    items: &mut List<Item>,
) -> Result<(), Memory>
    ensures { OnOk result (map item_view items.new ≡ map item_view items.old
        ++ at_end (made_of choices.now.ports.entries) (instance_view inst.now)
        (slice_get seats.now place)) }
{
    match seats.get(place) {
        Some(seat) => push_item(alloc, choices, inst, seat, items),
        None => Ok(()),
    }
}

/// The items of instances and their seats, in this order, of those whose ports have choices.
pub(crate) fn items_of(
    alloc: Global,
    choices: &Choices,
    order: &IndexSet<Instance>,
    seats: &[Seat],
) -> Result<List<Item>, Memory>
    ensures { IfOk result (λ items. map item_view items ≡ made_all choices.now.ports.entries
        (map instance_view order.now.keys) seats.now) }
{
    let mut items = List::with_capacity(alloc, order.len())?;
    for (place, inst) in order.as_slice().iter().enumerate() {
        push_at(alloc, choices, inst, seats, place, &mut items)?;
    }
    Ok(items)
}
