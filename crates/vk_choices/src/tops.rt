//! Which floors of a port are above others.
ghost use Rattle.std.specs.Prelude.{◌≡◌, ◌<◌, ◌+◌, ◌&&◌, length, option_map, take};
ghost use Rattle.std.specs.List.{list_all, list_any};
ghost use Rattle.vk_version.specs.Orders.{at_most};
ghost use Rattle.vk_choices.specs.Tops.{AreFirstTwo, IsFirst, IsGreatest, IsHighest, LeadsUp};
ghost use Rattle.vk_choices.specs.Tops.{is_after};
ghost use Rattle.vk_choices.specs.Tops.{is_ahead, is_below, is_later_top, is_sooner};

use crate::floors::Floor;
use std::cmp::Ordering;
use vk_version::{Version, order};

// Whether a version is at most another.
fn is_at_most(a: &Version, b: &Version) -> bool
    ensures { result ≡ at_most a.now b.now }
{
    matches!(order(a, b), Some(Ordering::Less | Ordering::Equal))
}

// Whether a version is below another.
fn is_below(a: &Version, b: &Version) -> bool
    ensures { result ≡ is_below a.now b.now }
{
    order(a, b) == Some(Ordering::Less)
}

// The place of a floor to which all others are compared: if any is at or above all, it is.
fn highest(floors: &[Floor]) -> usize
    requires { 0 < length floors.now }
    ensures { IsHighest floors.now result }
{
    let mut best = 0;
    for place in 1..floors.len() {
        if is_at_most(&floors[best].version, &floors[place].version) {
            best = place;
        }
    }
    best
}

// Whether all floors are at most a version.
fn are_at_most(floors: &[Floor], version: &Version) -> bool
    ensures { result ≡ list_all (λ f. at_most f.version version.now) floors.now }
{
    floors
        .iter()
        .all(|floor| is_at_most(&floor.version, version))
}

/// The place of the floor at or above all, if there is one.
pub(crate) fn greatest(floors: &[Floor]) -> Option<usize>
    ensures { IsGreatest floors.now result }
{
    if floors.is_empty() {
        return None;
    }
    let best = highest(floors);
    if are_at_most(floors, &floors[best].version) {
        Some(best)
    } else {
        None
    }
}

// The same with the floor at one place more.
fn climb_on(floors: &[Floor], version: &Version, top: Option<usize>, place: usize) -> Option<usize>
    requires within { place < length floors.now }
    requires so_far { LeadsUp floors.now (take place floors.now) version.now top }
    ensures { LeadsUp floors.now (take (place + 1) floors.now) version.now result }
{
    let lower = match top {
        Some(top) => &floors[top].version,
        None => version,
    };
    if is_below(lower, &floors[place].version) {
        Some(place)
    } else {
        top
    }
}

// The place of a floor to which a climb from a version leads, from each floor to one above it, if
// any floor is above the version.
fn climbed(floors: &[Floor], version: &Version) -> Option<usize>
    ensures { LeadsUp floors.now floors.now version.now result }
{
    let mut top = None;
    for place in 0..floors.len() {
        top = climb_on(floors, version, top, place);
    }
    top
}

// Whether a floor is above a version. The floor at a known place is looked at first: it is the one
// to which the last climb led, so most versions that are no tops are below it.
fn has_above(floors: &[Floor], known: &mut usize, version: &Version) -> bool
    requires { known.old < length floors.now }
    ensures known { known.new < length floors.now }
    ensures above { result ≡ list_any (λ f. is_below version.now f.version) floors.now }
{
    if is_below(version, &floors[*known].version) {
        return true;
    }
    let Some(top) = climbed(floors, version) else {
        return false;
    };
    *known = top;
    true
}

// Whether a version is told before another.
fn is_sooner(a: &Version, b: &Version) -> bool
    ensures { result ≡ is_sooner a.now b.now }
{
    a.ask() < b.ask()
}

fn is_after(after: Option<&Version>, version: &Version) -> bool
    ensures { result ≡ is_after (option_map (λ v. v.now) after.entry) version.now }
{
    match after {
        Some(earlier) => is_sooner(earlier, version),
        None => true,
    }
}

// Whether a floor comes before the one that is the first so far.
fn is_ahead(first: Option<&Floor>, floor: &Floor) -> bool
    ensures { result ≡ is_ahead (option_map (λ f. f.now) first.entry) floor.now }
{
    match first {
        Some(first) => is_sooner(&floor.version, &first.version),
        None => true,
    }
}

// Whether a floor is a top behind a version, and comes before the first such so far.
fn is_next(
    floors: &[Floor],
    known: &mut usize,
    after: Option<&Version>,
    first: Option<&Floor>,
    floor: &Floor,
) -> bool
    requires { known.old < length floors.now }
    ensures known { known.new < length floors.now }
    ensures next { result ≡ (is_ahead (option_map (λ f. f.now) first.entry) floor.now
        && is_later_top floors.now (option_map (λ v. v.now) after.entry) floor.now) }
{
    is_ahead(first, floor)
        && is_after(after, &floor.version)
        && !has_above(floors, known, &floor.version)
}

// The first top behind a version, if there is one.
fn first_top<'a>(floors: &'a [Floor], after: Option<&Version>) -> Option<&'a Floor>
    ensures { IsFirst (is_later_top floors.now (option_map (λ v. v.now) after.entry)) floors.now
        (option_map (λ f. f.now) result) }
{
    let mut first = None;
    let mut known = 0;
    for floor in floors {
        if is_next(floors, &mut known, after, first, floor) {
            first = Some(floor);
        }
    }
    first
}

/// The first two of the floors that no other is above, if there are two.
pub(crate) fn first_two(floors: &[Floor]) -> Option<(&Floor, &Floor)>
    ensures { AreFirstTwo floors.now (option_map (λ two. (two.0.now, two.1.now)) result) }
{
    let first = first_top(floors, None)?;
    let second = first_top(floors, Some(&first.version))?;
    Some((first, second))
}
