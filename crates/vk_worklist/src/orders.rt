//! Putting the lines from a place on in order, where they stand.
ghost use Rattle.std.specs.Prelude.{◌≡◌, ◌+◌, ◌-◌, ◌<◌, ◌≤◌, true, false, MatchBool, OnOk, length};
ghost use Rattle.std.specs.Prelude.{slice_index_or};
ghost use Rattle.vk_worklist.specs.Arranged.{IsArranged, IsInOrder, IsPutInOrder, is_less};

use indexmap::IndexMap;
use std::alloc::AllocError;
use std::cmp::Ordering;
use std::mem::replace;
use vk_base::PortName;
use vk_model::{Cause, Fact, Who};

// So few lines are put in order without ranks.
const FEW: usize = 4;

// Where a line stands, and the kind of its fact with the first bytes of its port. Most comparisons
// need no more than these, and so no look at a text.
#[derive(Clone, Copy, Drop)]
struct Rank {
    head: u64,
    place: usize,
}

// A byte of a text, and 0 behind its end.
fn byte_at(bytes: &[u8], at: usize) -> u64 {
    match bytes.get(at) {
        Some(byte) => u64::from(*byte),
        None => 0,
    }
}

// A kind, and the first seven bytes of a port's name.
fn head_with(kind: u64, port: &PortName) -> u64 {
    let bytes = port.as_str().as_bytes();
    let mut head = kind;
    for at in 0..7 {
        head = head << 8 | byte_at(bytes, at);
    }
    head
}

fn head_of(fact: &Fact) -> u64 {
    match fact {
        Fact::Need {
            who: Who::Root(_),
            ..
        } => 0,
        Fact::Need {
            who: Who::Inst(inst),
            ..
        } => head_with(1, &inst.port),
        Fact::Floor { port, .. } => head_with(2, port),
        Fact::Visit { inst, .. } => head_with(3, &inst.port),
    }
}

// The ranks of the lines from a place on.
fn ranks_of(lines: &IndexMap<Fact, Cause>, settled: usize) -> Result<Vec<Rank>, AllocError> {
    let mut ranks = Vec::with_capacity(*lines.allocator(), lines.len().saturating_sub(settled))?;
    for place in settled..lines.len() {
        if let Some((fact, _)) = lines.get_index(place) {
            ranks.push(Rank {
                head: head_of(fact),
                place,
            })?;
        }
    }
    Ok(ranks)
}

// How two lines are ordered, by their facts where their heads are the same.
fn compare(lines: &IndexMap<Fact, Cause>, one: &Rank, other: &Rank) -> Ordering {
    if one.head != other.head {
        return one.head.cmp(&other.head);
    }
    match (lines.get_index(one.place), lines.get_index(other.place)) {
        (Some((fact, _)), Some((another, _))) => fact.cmp(another),
        _ => Ordering::Equal,
    }
}

// Exchanges two lines, if both stand behind the settled ones.
fn exchange(lines: &mut IndexMap<Fact, Cause>, settled: usize, one: usize, other: usize)
    ensures { IsArranged settled lines.old.entries lines.new.entries }
{
    if settled <= one && one < lines.len() && settled <= other && other < lines.len() {
        lines.swap_indices(one, other);
    }
}

// Whence the line for a place is taken. From then on it stands there.
fn taken_from(ranks: &mut Vec<Rank>, settled: usize, at: usize) -> usize {
    match ranks.get_mut(at.saturating_sub(settled)) {
        Some(rank) => replace(&mut rank.place, at),
        None => at,
    }
}

// Exchanges lines until each of those that wait for one another stands where it belongs.
fn follow(lines: &mut IndexMap<Fact, Cause>, settled: usize, ranks: &mut Vec<Rank>, start: usize)
    ensures { IsArranged settled lines.old.entries lines.new.entries }
{
    let mut at = start;
    for _ in 0..ranks.len() {
        let from = taken_from(ranks, settled, at);
        if from == start {
            return;
        }
        exchange(lines, settled, at, from);
        at = from;
    }
}

// Exchanges lines as sorted ranks say, unless they are few. No proof rests on where they stand
// then.
fn arrange(lines: &mut IndexMap<Fact, Cause>, settled: usize) -> Result<(), AllocError>
    ensures { OnOk result (IsArranged settled lines.old.entries lines.new.entries) }
{
    if lines.len().saturating_sub(settled) <= FEW {
        return Ok(());
    }
    let mut ranks = ranks_of(lines, settled)?;
    ranks.sort_unstable_by(|one: &Rank, other: &Rank| -> Ordering { compare(lines, one, other) });
    for start in settled..lines.len() {
        follow(lines, settled, &mut ranks, start);
    }
    Ok(())
}

// Whether the fact of one line is less than that of another.
fn is_less(lines: &IndexMap<Fact, Cause>, one: usize, other: usize) -> bool
    requires one { one < length lines.now.entries }
    requires other { other < length lines.now.entries }
    ensures { (d : Fact × Cause) → result ≡ is_less (slice_index_or lines.now.entries one d)
        (slice_index_or lines.now.entries other d) }
{
    let (fact, _) = lines.get_index(one).unwrap();
    let (another, _) = lines.get_index(other).unwrap();
    fact.cmp(another).is_lt()
}

// Whether a line belongs before the one in front of it.
fn goes_before(lines: &IndexMap<Fact, Cause>, settled: usize, place: usize) -> bool
    requires { place < length lines.now.entries }
    ensures { MatchBool result
        ((settled < place) × ((d : Fact × Cause) →
        is_less (slice_index_or lines.now.entries place d)
        (slice_index_or lines.now.entries (place - 1) d) ≡ true))
        ((d : Fact × Cause) → settled < place → is_less (slice_index_or lines.now.entries place d)
        (slice_index_or lines.now.entries (place - 1) d) ≡ false) }
{
    settled < place && is_less(lines, place, place - 1)
}

// Moves a line forward until the one before it isn't greater, where those before it are in order.
fn sift(lines: &mut IndexMap<Fact, Cause>, settled: usize, at: usize)
    requires settled { settled ≤ at }
    requires within { at < length lines.old.entries }
    requires order { IsInOrder settled at lines.old.entries }
    ensures arranged { IsArranged settled lines.old.entries lines.new.entries }
    ensures order { IsInOrder settled (at + 1) lines.new.entries }
{
    let mut place = at;
    while goes_before(lines, settled, place) {
        lines.swap_indices(place - 1, place);
        place -= 1;
    }
}

// Moves each line forward as far as it belongs, which is nowhere where ranks told its place.
fn sift_all(lines: &mut IndexMap<Fact, Cause>, settled: usize)
    requires { settled ≤ length lines.old.entries }
    ensures arranged { IsArranged settled lines.old.entries lines.new.entries }
    ensures order { IsInOrder settled (length lines.old.entries) lines.new.entries }
{
    for at in settled..lines.len() {
        sift(lines, settled, at);
    }
}

/// Puts the lines from a place on in order.
pub(crate) fn put_in_order(
    lines: &mut IndexMap<Fact, Cause>,
    settled: usize,
) -> Result<(), AllocError>
    requires { settled ≤ length lines.old.entries }
    ensures { OnOk result (IsPutInOrder settled lines.old.entries lines.new.entries) }
{
    arrange(lines, settled)?;
    sift_all(lines, settled);
    Ok(())
}
