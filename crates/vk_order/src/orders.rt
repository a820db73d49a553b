//! Items in the order of their heights.
ghost use Rattle.std.specs.Prelude.{◌≡◌, ◌<◌, ◌^◌, IfOk, length, map};
ghost use Rattle.std.specs.List.{All};
ghost use Rattle.vk_resolution.specs.Planning.{IsCycle, order_of};
ghost use Rattle.vk_resolution.specs.PlannedSets.{IsOrdered, edges_of};
ghost use Rattle.vk_model.specs.FaultViews.{item_view};
ghost use Rattle.vk_model.specs.SettingViews.{instance_view};
ghost use Rattle.vk_order.specs.Arranging.{ArePlaced, IsArranged, IsInOrder, name_at};
ghost use Rattle.vk_order.specs.Needs.{ArePlaces, needs_of};
ghost use Rattle.vk_order.specs.Sets.{AreItems, OnCycle};

use crate::cycles::first_walk;
use crate::moves::{arranged, height_order, new_places, renumber_all};
use crate::peeling::heights_of;
use crate::users::users_of;
use std::alloc::{AllocError, Global};
use vk_base::{Instance, List, Unread};
use vk_model::{Item, Plan, PlanSet};

/// Why items have no order.
#[derive(Drop)]
pub enum OrderFault {
    /// Instances that depend on each other in a circle: each on the next, the last on the first.
    /// It begins at the least instance on any cycle, and is the shortest through that.
    Cycle(List<Instance>),
}

/// How items are arranged.
#[derive(Drop)]
enum Arrangement {
    /// The places by height, and the new place of each.
    Order(Vec<u32>, Vec<u32>),
    /// The instances of a cycle.
    Cycle(List<Instance>),
}

// The instance at a place, copied.
fn instance_at(items: &[Item], place: usize) -> Result<Instance, AllocError>
    requires { place < length items.now }
    ensures { IfOk result (λ i. instance_view i
        ≡ name_at (order_of (map item_view items.now)) place) }
{
    Ok(items[place].inst.clone()?)
}

// The instances at these places.
fn instances_at(alloc: Global, items: &[Item], places: &[u32]) -> Result<List<Instance>, AllocError>
    requires { All (λ k. k < length items.now) places.now }
    ensures { IfOk result (λ told. map instance_view told
        ≡ map (name_at (order_of (map item_view items.now))) places.now) }
{
    let mut told = List::new(alloc);
    for place in places {
        told.push(instance_at(items, *place as usize)?)?;
    }
    Ok(told)
}

// The places by height, and the new place of each.
fn by_height(alloc: Global, heights: &[Option<u32>]) -> Result<Arrangement, AllocError>
    requires { length heights.now < 2 ^ 32 }
    ensures { IfOk result (λ found. ArePlaced heights.now found) }
{
    let order = height_order(alloc, heights)?;
    let places = new_places(alloc, &order)?;
    Ok(Arrangement::Order(order, places))
}

// The places by height and then by place, or the cycle that there is.
fn arrange(alloc: Global, items: &[Item]) -> Result<Arrangement, AllocError>
    requires small { length items.now < 2 ^ 32 }
    requires places { ArePlaces (needs_of items.now) }
    ensures { IfOk result (λ found. IsArranged items.now found) }
{
    let users = users_of(alloc, items)?;
    let heights = heights_of(alloc, items, &users)?;
    match first_walk(alloc, items, &users, &heights)? {
        Some(walk) => Ok(Arrangement::Cycle(instances_at(alloc, items, &walk)?)),
        None => by_height(alloc, &heights),
    }
}

// The items in this order, with their needs renumbered.
fn moved(
    alloc: Global,
    mut items: Vec<Item>,
    order: &[u32],
    places: &[u32],
) -> Result<Plan, AllocError>
    requires items { AreItems (map item_view items.items) }
    requires order { IsInOrder (needs_of items.items) order.now places.now }
    ensures { IfOk result (λ plan. IsOrdered (map item_view items.items)
        (map item_view plan.items)) }
{
    renumber_all(alloc, &mut items, places)?;
    Ok(Plan {
        items: List::from_vec(arranged(alloc, items, order)?),
    })
}

/// The items by height, then by port and triplet: each stands behind all that it needs, and its
/// needs are places in the plan. The height is 0 without needs, else one more than the greatest
/// height of a need. `Cycle` comes exactly where some items need each other in a circle.
pub fn plan_order(alloc: Global, set: PlanSet) -> Result<Plan, Unread<OrderFault>>
    requires small { length set.items < 2 ^ 32 }
    requires items { AreItems (map item_view set.items) }
    ensures plan { IfOk result
        (λ plan. IsOrdered (map item_view set.items) (map item_view plan.items)) }
    ensures cycle { OnCycle result (λ walk. IsCycle (edges_of (map item_view set.items))
        (order_of (map item_view set.items)) walk) }
{
    match arrange(alloc, set.items.as_slice()) {
        Ok(Arrangement::Order(order, places)) => {
            Ok(moved(alloc, set.items.into_vec(), &order, &places)?)
        }
        Ok(Arrangement::Cycle(walk)) => {
            drop(set);
            Err(Unread::Fault(OrderFault::Cycle(walk)))
        }
        Err(lack) => {
            drop(set);
            Err(Unread::from(lack))
        }
    }
}
