//! Items into the order of their heights.
ghost use Rattle.std.specs.List.{All};
ghost use Rattle.std.specs.Prelude.{slice_index_or, slice_set, slice_get};
ghost use Rattle.std.specs.Prelude.{◌≡◌, ◌<◌, ◌^◌, ℕ, Some, None, IfOk, IsSome, OnOk, length, map};
ghost use Rattle.vk_model.specs.FaultViews.{item_view};
ghost use Rattle.vk_order.specs.Arranging.{IsSameBut, AreSameBut};
ghost use Rattle.vk_order.specs.Moves.{AreNewPlaces, AreRanked, AreRenumbered};
ghost use Rattle.vk_order.specs.Moves.{IsHeightOrder, StandOnce};
ghost use Rattle.vk_order.specs.Needs.{listed_at, needs_of};

use std::alloc::{AllocError, Global};
use vk_base::List;
use vk_model::Item;

// The places with their heights, in the order of places.
fn ranked(alloc: Global, heights: &[Option<u32>]) -> Result<Vec<(Option<u32>, u32)>, AllocError>
    requires { length heights.now < 2 ^ 32 }
    ensures { IfOk result (λ places. AreRanked heights.now places.items) }
{
    let mut places = Vec::with_capacity(alloc, heights.len())?;
    for (place, height) in heights.iter().enumerate() {
        places.push((*height, place as u32))?;
    }
    Ok(places)
}

// The places alone.
fn places_of(alloc: Global, ranked: &[(Option<u32>, u32)]) -> Result<Vec<u32>, AllocError>
    ensures { IfOk result (λ places. places.items ≡ map (λ r. r.1) ranked.now) }
{
    ranked.iter().map(|place| place.1).collect(alloc)
}

/// The places by height, then by place.
pub(crate) fn height_order(alloc: Global, heights: &[Option<u32>]) -> Result<Vec<u32>, AllocError>
    requires { length heights.now < 2 ^ 32 }
    ensures { IfOk result (λ order. IsHeightOrder heights.now order.items) }
{
    let mut places = ranked(alloc, heights)?;
    places.sort()?;
    Ok(places_of(alloc, &places)?)
}

/// The new place of each old one.
pub(crate) fn new_places(alloc: Global, order: &[u32]) -> Result<Vec<u32>, AllocError>
    requires small { length order.now < 2 ^ 32 }
    requires places { All (λ k. k < length order.now) order.now }
    requires once { StandOnce order.now }
    ensures { IfOk result (λ places. AreNewPlaces order.now places.items) }
{
    let mut places = vec![in alloc; 0; order.len()]?;
    for (new, old) in order.iter().enumerate() {
        places[*old as usize] = new as u32;
    }
    Ok(places)
}

// The needs by their new places, in order, each once.
fn renumbered(alloc: Global, needs: &[u32], places: &[u32]) -> Result<List<u32>, AllocError>
    requires { All (λ n. n < length places.now) needs.now }
    ensures { IfOk result (λ new. AreRenumbered places.now needs.now new) }
{
    let mut new = Vec::with_capacity(alloc, needs.len())?;
    for need in needs {
        new.push(places[*need as usize])?;
    }
    new.sort_unstable();
    new.dedup();
    Ok(List::from_vec(new))
}

// An item's needs by their new places.
fn renumber(alloc: Global, item: &mut Item, places: &[u32]) -> Result<(), AllocError>
    requires { All (λ n. n < length places.now) item.old.needs }
    ensures { OnOk result (IsSameBut places.now (item_view item.old) (item_view item.new)) }
{
    item.needs = renumbered(alloc, item.needs.as_slice(), places)?;
    Ok(())
}

/// The needs of all items by their new places.
pub(crate) fn renumber_all(
    alloc: Global,
    items: &mut [Item],
    places: &[u32],
) -> Result<(), AllocError>
    requires { (k : ℕ) → All (λ n. n < length places.now) (listed_at (needs_of items.old) k) }
    ensures { OnOk result (AreSameBut places.now (map item_view items.old)
        (map item_view items.new)) }
{
    for place in 0..items.len() {
        renumber(alloc, &mut items[place], places)?;
    }
    Ok(())
}

// Each thing, as one that can be taken.
fn all_there<T: Drop>(alloc: Global, things: Vec<T>) -> Result<Vec<Option<T>>, AllocError>
    ensures { IfOk result (λ there. there.items ≡ map Some things.items) }
{
    let mut there = Vec::with_capacity(alloc, things.len())?;
    for thing in things {
        there.push(Some(thing))?;
    }
    Ok(there)
}

// Takes the thing at a place.
fn take_at<T: Drop>(there: &mut [Option<T>], place: usize) -> T
    requires within { place < length there.old }
    requires there { IsSome (slice_index_or there.old place None) }
    ensures taken { slice_index_or there.old place None ≡ Some result }
    ensures rest { there.new ≡ slice_set there.old place None }
{
    there[place].take().unwrap()
}

/// The things, in this order of their places.
pub(crate) fn arranged<T: Drop>(
    alloc: Global,
    things: Vec<T>,
    order: &[u32],
) -> Result<Vec<T>, AllocError>
    requires places { All (λ k. k < length things.items) order.now }
    requires once { StandOnce order.now }
    ensures { IfOk result (λ moved. map Some moved.items ≡ map (slice_get things.items) order.now) }
{
    let mut there = all_there(alloc, things)?;
    let mut moved = Vec::with_capacity(alloc, order.len())?;
    for place in order {
        moved.push(take_at(&mut there, *place as usize))?;
    }
    Ok(moved)
}
