//! The cycle that is told.
ghost use Rattle.std.specs.Prelude.{◌≡◌, ◌<◌, ◌^◌, ℕ, true, None, IfOk, MatchOption, length};
ghost use Rattle.std.specs.List.{All};
ghost use Rattle.vk_order.specs.Needs.{ArePlaces, AreUsers, known_at, listed_at, needs_of};
ghost use Rattle.vk_order.specs.Components.{AreComponents};
ghost use Rattle.vk_order.specs.Ways.{AreLengths, AreOnNone, HaveNoWay, IsClosest, IsFoundWalk};
ghost use Rattle.vk_order.specs.Ways.{IsNextOf, IsOnNone, IsWalkBack, IsWalkFrom, nearer_of};

use crate::components::{components_of, stands_above};
use crate::users::needs_at;
use crate::ways::lengths_to;
use std::alloc::{AllocError, Global};
use vk_base::List;
use vk_model::Item;

// The nearer of the best so far and a place with its way: by the length, then by the place.
fn nearer(best: Option<(u32, u32)>, steps: Option<u32>, place: u32) -> Option<(u32, u32)>
    ensures { result ≡ nearer_of best steps place }
{
    let Some(steps) = steps else {
        return best;
    };
    match best {
        Some(best) if best <= (steps, place) => Some(best),
        _ => Some((steps, place)),
    }
}

// The least of these needs among those from which the way is shortest.
fn closest(needs: &[u32], lengths: &[Option<u32>]) -> Option<u32>
    requires { All (λ n. n < length lengths.now) needs.now }
    ensures { MatchOption result (HaveNoWay needs.now lengths.now)
        (λ j. IsClosest needs.now lengths.now j) }
{
    let mut best = None;
    for need in needs {
        best = nearer(best, lengths[*need as usize], *need);
    }
    let (_, place) = best?;
    Some(place)
}

// The next place of a walk, but for the first.
fn next_of(needs: &[u32], lengths: &[Option<u32>], first: u32) -> Option<u32>
    requires places { All (λ n. n < length lengths.now) needs.now }
    requires way { HaveNoWay needs.now lengths.now → ⊥ }
    ensures { IsNextOf needs.now lengths.now first result }
{
    closest(needs, lengths).filter(|place| *place != first)
}

// The walk from a place back to it, along the shortest ways.
fn walk_from(
    alloc: Global,
    items: &[Item],
    lengths: &[Option<u32>],
    first: u32,
) -> Result<Vec<u32>, AllocError>
    requires within { first < length items.now }
    requires places { ArePlaces (needs_of items.now) }
    requires lengths { AreLengths (needs_of items.now) first lengths.now }
    requires way { HaveNoWay (listed_at (needs_of items.now) first) lengths.now → ⊥ }
    ensures { IfOk result (λ walk. IsWalkFrom (needs_of items.now) lengths.now first walk.items) }
{
    let mut walk = vec![in alloc; first]?;
    let mut next = next_of(needs_at(items, first as usize), lengths, first);
    while let Some(place) = next {
        walk.push(place)?;
        next = next_of(needs_at(items, place as usize), lengths, first);
    }
    Ok(walk)
}

// The walk from a place back to it, where there is a way. There is none to what stands above all
// that it needs.
fn walk_at(
    alloc: Global,
    items: &[Item],
    users: &[List<u32>],
    components: &[Option<u32>],
    first: u32,
) -> Result<Option<Vec<u32>>, AllocError>
    requires small { length items.now < 2 ^ 32 }
    requires within { first < length items.now }
    requires places { ArePlaces (needs_of items.now) }
    requires users { AreUsers (needs_of items.now) users.now }
    requires components { AreComponents (needs_of items.now) components.now }
    ensures { IfOk result (λ found. MatchOption found (IsOnNone (needs_of items.now) first)
        (λ walk. IsWalkBack (needs_of items.now) first walk.items)) }
{
    if stands_above(items, components, first) {
        return Ok(None);
    }
    let lengths = lengths_to(alloc, items, users, first)?;
    if closest(needs_at(items, first as usize), &lengths).is_none() {
        return Ok(None);
    }
    Ok(Some(walk_from(alloc, items, &lengths, first)?))
}

// Whether all heights are known.
fn are_known(heights: &[Option<u32>]) -> bool
    ensures { result ≡ true → (k : ℕ) → k < length heights.now → known_at heights.now k ≡ None → ⊥ }
{
    for height in heights {
        if height.is_none() {
            return false;
        }
    }
    true
}

/// The walk from the least place on a cycle. What has a height is on none, and neither is what
/// stands above all that it needs.
pub(crate) fn first_walk(
    alloc: Global,
    items: &[Item],
    users: &[List<u32>],
    heights: &[Option<u32>],
) -> Result<Option<Vec<u32>>, AllocError>
    requires small { length items.now < 2 ^ 32 }
    requires heights { length heights.now ≡ length items.now }
    requires places { ArePlaces (needs_of items.now) }
    requires users { AreUsers (needs_of items.now) users.now }
    ensures { IfOk result (λ found. MatchOption found (AreOnNone (needs_of items.now) heights.now)
        (λ walk. IsFoundWalk (needs_of items.now) heights.now walk.items)) }
{
    if are_known(heights) {
        return Ok(None);
    }
    let components = components_of(alloc, items, users)?;
    for place in 0..items.len() {
        if let Some(walk) = walk_at(alloc, items, users, &components, place as u32)? {
            return Ok(Some(walk));
        }
    }
    Ok(None)
}
