//! The lengths of the shortest ways to a place.
ghost use Rattle.std.specs.Prelude.{◌<◌, ◌^◌, ◌∷◌, ℕ, [], IfOk, OnOk, flat_map, length};
ghost use Rattle.std.specs.List.{All};
ghost use Rattle.vk_order.specs.Needs.{AreUsers, ArePlaces, listed_at, needs_of};
ghost use Rattle.vk_order.specs.Ways.{AreLengths, AreReached};

use crate::users::users_at;
use std::alloc::{AllocError, Global};
use vk_base::List;
use vk_model::Item;

/// Notes this length for a place that has none, and puts it behind the others.
pub(crate) fn reach_one(
    place: u32,
    steps: u32,
    lengths: &mut [Option<u32>],
    next: &mut Vec<u32>,
) -> Result<(), AllocError>
    requires { place < length lengths.old }
    ensures { OnOk result (AreReached (place ∷ []) steps lengths.old lengths.new next.old.items
        next.new.items) }
{
    if lengths[place as usize].is_some() {
        return Ok(());
    }
    lengths[place as usize] = Some(steps);
    next.push(place)?;
    Ok(())
}

/// Notes this length for the places that have none, and puts them behind the others.
pub(crate) fn reach(
    places: &[u32],
    steps: u32,
    lengths: &mut [Option<u32>],
    next: &mut Vec<u32>,
) -> Result<(), AllocError>
    requires { All (λ k. k < length lengths.old) places.now }
    ensures { OnOk result (AreReached places.now steps lengths.old lengths.new next.old.items
        next.new.items) }
{
    for place in places {
        reach_one(*place, steps, lengths, next)?;
    }
    Ok(())
}

// Notes this length for the users of a level that have none; answers those.
fn next_level(
    alloc: Global,
    users: &[List<u32>],
    level: &[u32],
    steps: u32,
    lengths: &mut [Option<u32>],
) -> Result<Vec<u32>, AllocError>
    requires level { All (λ k. k < length users.now) level.now }
    requires users { (n : ℕ) → All (λ k. k < length lengths.old) (listed_at users.now n) }
    ensures { IfOk result (λ next. AreReached (flat_map (listed_at users.now) level.now) steps
        lengths.old lengths.new [] next.items) }
{
    let mut next = Vec::new(alloc);
    for place in level {
        reach(users_at(users, *place as usize), steps, lengths, &mut next)?;
    }
    Ok(next)
}

/// The lengths of the shortest ways to a place, from all places that have one.
pub(crate) fn lengths_to(
    alloc: Global,
    items: &[Item],
    users: &[List<u32>],
    first: u32,
) -> Result<Vec<Option<u32>>, AllocError>
    requires small { length items.now < 2 ^ 32 }
    requires within { first < length items.now }
    requires places { ArePlaces (needs_of items.now) }
    requires users { AreUsers (needs_of items.now) users.now }
    ensures { IfOk result (λ lengths. AreLengths (needs_of items.now) first lengths.items) }
{
    let mut lengths = vec![in alloc; None; items.len()]?;
    lengths[first as usize] = Some(0);
    let mut level = vec![in alloc; first]?;
    let mut depth = 0;
    while !level.is_empty() {
        depth += 1;
        level = next_level(alloc, users, &level, depth, &mut lengths)?;
    }
    Ok(lengths)
}
