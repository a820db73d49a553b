//! The heights of all places that have one.
ghost use Rattle.std.specs.Prelude.{◌≡◌, ◌+◌, ◌<◌, ◌^◌, ℕ, true, false, IfOk, OnOk, MatchOption};
ghost use Rattle.std.specs.Prelude.{length};
ghost use Rattle.std.specs.List.{All};
ghost use Rattle.vk_order.specs.Needs.{ArePlaces, AreUsers, known_at, known_in, needs_of};
ghost use Rattle.vk_order.specs.Peeling.{AreAllHeld, AreHeights, AreRight, IsAbove, IsHeld};
ghost use Rattle.vk_order.specs.Peeling.{IsSettled};

use crate::users::{needs_at, users_at};
use std::alloc::{AllocError, Global};
use vk_base::List;
use vk_model::Item;

// Takes one off the count of each of these users, and puts those that reach 0 behind the others.
fn count_down(users: &[u32], missing: &mut [usize], order: &mut Vec<u32>) -> Result<(), AllocError>
    requires users { All (λ k. k < length missing.old) users.now }
    requires order { All (λ k. k < length missing.old) order.old.items }
    ensures order { OnOk result (All (λ k. k < length missing.old) order.new.items) }
{
    for user in users {
        let left = missing[*user as usize].saturating_sub(1);
        missing[*user as usize] = left;
        if left == 0 {
            order.push(*user)?;
        }
    }
    Ok(())
}

// How many needs each place has, and the places that need nothing.
fn bottom(alloc: Global, items: &[Item]) -> Result<(Vec<usize>, Vec<u32>), AllocError>
    requires { length items.now < 2 ^ 32 }
    ensures { IfOk result (λ found. (length found.0.items ≡ length items.now)
        × All (λ k. k < length items.now) found.1.items) }
{
    let mut missing = Vec::with_capacity(alloc, items.len())?;
    let mut order = Vec::with_capacity(alloc, items.len())?;
    for (place, item) in items.iter().enumerate() {
        missing.push(item.needs.len())?;
        if item.needs.is_empty() {
            order.push(place as u32)?;
        }
    }
    Ok((missing, order))
}

// Places in an order in which each stands behind what it needs, where that can be. It makes the
// heights quick to find; that they are right doesn't rest on it.
fn peeled(alloc: Global, items: &[Item], users: &[List<u32>]) -> Result<Vec<u32>, AllocError>
    requires small { length items.now < 2 ^ 32 }
    requires places { ArePlaces (needs_of items.now) }
    requires users { AreUsers (needs_of items.now) users.now }
    ensures { IfOk result (λ order. All (λ k. k < length items.now) order.items) }
{
    let (mut missing, mut order) = bottom(alloc, items)?;
    for done in 0..items.len() {
        let Some(place) = order.get(done) else {
            break;
        };
        let place = *place as usize;
        count_down(users_at(users, place), &mut missing, &mut order)?;
    }
    Ok(order)
}

// The height of what has these needs, where all of them have one.
fn height_above(needs: &[u32], heights: &[Option<u32>]) -> Option<u32>
    requires places { All (λ n. n < length heights.now) needs.now }
    requires few { (n h : ℕ) → known_at heights.now n ≡ Some h → h + 1 < 2 ^ 32 }
    ensures { MatchOption result (IsHeld needs.now heights.now)
        (λ h. IsAbove needs.now heights.now h) }
{
    let mut height = 0;
    for need in needs {
        let lower = heights[*need as usize]?;
        height = height.max(lower + 1);
    }
    Some(height)
}

// Finds the height of a place, where it has none yet and all its needs have one.
fn settle(items: &[Item], heights: &mut [Option<u32>], place: usize) -> bool
    requires small { length items.now < 2 ^ 32 }
    requires within { place < length items.now }
    requires places { ArePlaces (needs_of items.now) }
    requires right { AreRight (needs_of items.now) heights.old }
    ensures right { AreRight (needs_of items.now) heights.new }
    ensures settled { IsSettled (needs_of items.now) place result heights.old heights.new }
{
    if heights[place].is_some() {
        return false;
    }
    let Some(height) = height_above(needs_at(items, place), heights) else {
        return false;
    };
    heights[place] = Some(height);
    true
}

// Finds the heights of these places, one behind the other.
fn settle_along(items: &[Item], order: &[u32], heights: &mut [Option<u32>])
    requires small { length items.now < 2 ^ 32 }
    requires order { All (λ k. k < length items.now) order.now }
    requires places { ArePlaces (needs_of items.now) }
    requires right { AreRight (needs_of items.now) heights.old }
    ensures right { AreRight (needs_of items.now) heights.new }
{
    for place in order {
        settle(items, heights, *place as usize);
    }
}

// Finds the heights of all places that it can; answers whether it found any.
fn settle_more(items: &[Item], heights: &mut [Option<u32>]) -> bool
    requires small { length items.now < 2 ^ 32 }
    requires places { ArePlaces (needs_of items.now) }
    requires right { AreRight (needs_of items.now) heights.old }
    ensures right { AreRight (needs_of items.now) heights.new }
    ensures more { result ≡ true → known_in heights.old < known_in heights.new }
    ensures held { result ≡ false → AreAllHeld (needs_of items.now) heights.new }
{
    let mut more = false;
    for place in 0..items.len() {
        more |= settle(items, heights, place);
    }
    more
}

/// The heights of all places that have one.
pub(crate) fn heights_of(
    alloc: Global,
    items: &[Item],
    users: &[List<u32>],
) -> Result<Vec<Option<u32>>, AllocError>
    requires small { length items.now < 2 ^ 32 }
    requires places { ArePlaces (needs_of items.now) }
    requires users { AreUsers (needs_of items.now) users.now }
    ensures { IfOk result (λ heights. AreHeights (needs_of items.now) heights.items) }
{
    let order = peeled(alloc, items, users)?;
    let mut heights = vec![in alloc; None; items.len()]?;
    settle_along(items, &order, &mut heights);
    while settle_more(items, &mut heights) {}
    Ok(heights)
}
