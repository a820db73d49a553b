ghost use Rattle.std.specs.Prelude.{◌≡◌, ◌+◌, ◌≤◌, [], false, IfOk, OnOk, length};
ghost use Rattle.vk_spec.specs.Lists.{NoRepeats};
ghost use Rattle.vk_spec.specs.Catalogues.{OnlyAsked, OnPages};
ghost use Rattle.vk_base.specs.Stops.{has_failed};
ghost use Rattle.vk_resolution.specs.Reasons.{IsReasons};
ghost use Rattle.vk_resolution.specs.Closing.{IsClosing, IsTooMuch};
ghost use Rattle.vk_resolution.specs.Closures.{HasTooManyFacts};
ghost use Rattle.vk_resolution.specs.Planner.{inputs_of};
ghost use Rattle.vk_worklist.specs.Entries.{reasons_in, facts_in, AreRoots, IsFirstLevel};
ghost use Rattle.vk_worklist.specs.Faults.{OnFault};
ghost use Rattle.vk_worklist.specs.Ticks.{ticks};

use crate::faults::CloseFault;
use crate::levels::{next_level, take_up_level};
use crate::notes::note_all;
use crate::sources::Source;
use indexmap::IndexMap;
use std::alloc::Global;
use std::sync::ledger::Ledger;
use vk_base::{Steps, Stop};
use vk_catalogue::Catalogue;
use vk_model::{Cause, Fact};

// Puts the given facts, in order, on the first lines.
fn first_level(
    lines: &mut IndexMap<Fact, Cause>,
    given: &mut Vec<(Fact, Cause)>,
    most: u32,
) -> Result<(), Stop<CloseFault>>
    requires lines { lines.old.entries ≡ [] }
    ensures ok { OnOk result
        (IsFirstLevel (reasons_in given.old.items) (reasons_in lines.new.entries)) }
    ensures distinct { OnOk result (NoRepeats (facts_in lines.new.entries)) }
    ensures few { OnOk result (length lines.new.entries ≤ most) }
    ensures none { OnOk result (given.new.items ≡ []) }
    ensures facts { OnFault result most (IsTooMuch [] (reasons_in given.old.items) [] most) }
    ensures calm { has_failed result ≡ false }
{
    note_all(lines, most, given)?;
    next_level(lines, 0)?;
    Ok(())
}

// Takes up all lines, level by level, until nothing new stands behind them.
fn close_levels<C: Catalogue, S: Source, L: Ledger>(
    cat: &mut C,
    source: &mut S,
    lines: &mut IndexMap<Fact, Cause>,
    most: u32,
    brought: &mut Vec<(Fact, Cause)>,
    steps: &mut Steps<L>,
) -> Result<(), Stop<CloseFault>>
    requires limit { (S.setting source.old).max_facts ≡ most }
    requires few { length lines.old.entries ≤ most }
    requires distinct { NoRepeats (facts_in lines.old.entries) }
    requires none { brought.old.items ≡ [] }
    requires tracks { OnPages (λ pages. S.tracks source.old pages []) (C.state cat.old) }
    requires closing { OnPages
        (λ pages. IsClosing (inputs_of (S.setting source.old) pages)
        (reasons_in lines.old.entries) [] [])
        (C.state cat.old) }
    ensures ok { OnOk result (OnPages
        (λ pages. IsReasons (inputs_of (S.setting source.old) pages)
        (reasons_in lines.new.entries))
        (C.state cat.old)) }
    ensures few { OnOk result (length lines.new.entries ≤ most) }
    ensures facts { OnFault result most (OnPages
        (λ pages. HasTooManyFacts (inputs_of (S.setting source.old) pages)) (C.state cat.old)) }
    ensures ticks { OnOk result (steps.new ≤ steps.old + ticks (facts_in lines.new.entries)) }
    ensures most { steps.new ≤ steps.old + most }
    ensures setting { S.setting source.new ≡ S.setting source.old }
    ensures asked { OnlyAsked (has_failed result) (C.state cat.old) (C.state cat.new) }
    ensures tracks { OnOk result (OnPages
        (λ pages. S.tracks source.new pages (facts_in lines.new.entries)) (C.state cat.old)) }
{
    let mut taken = 0;
    loop {
        let settled = lines.len();
        take_up_level(cat, source, lines, taken, most, brought, steps)?;
        if lines.len() == settled {
            return Ok(());
        }
        next_level(lines, settled)?;
        taken = settled;
    }
}

// Closes empty lines from the facts that are given.
fn close_lines<C: Catalogue, S: Source, L: Ledger>(
    cat: &mut C,
    source: &mut S,
    lines: &mut IndexMap<Fact, Cause>,
    most: u32,
    given: &mut Vec<(Fact, Cause)>,
    steps: &mut Steps<L>,
) -> Result<(), Stop<CloseFault>>
    requires limit { (S.setting source.old).max_facts ≡ most }
    requires lines { lines.old.entries ≡ [] }
    requires tracks { OnPages (λ pages. S.tracks source.old pages []) (C.state cat.old) }
    requires roots { AreRoots (S.setting source.old) (reasons_in given.old.items) }
    ensures ok { OnOk result (OnPages
        (λ pages. IsReasons (inputs_of (S.setting source.old) pages)
        (reasons_in lines.new.entries))
        (C.state cat.old)) }
    ensures few { OnOk result (length lines.new.entries ≤ most) }
    ensures facts { OnFault result most (OnPages
        (λ pages. HasTooManyFacts (inputs_of (S.setting source.old) pages)) (C.state cat.old)) }
    ensures ticks { OnOk result (steps.new ≤ steps.old + ticks (facts_in lines.new.entries)) }
    ensures most { steps.new ≤ steps.old + most }
    ensures setting { S.setting source.new ≡ S.setting source.old }
    ensures asked { OnlyAsked (has_failed result) (C.state cat.old) (C.state cat.new) }
    ensures tracks { OnOk result (OnPages
        (λ pages. S.tracks source.new pages (facts_in lines.new.entries)) (C.state cat.old)) }
{
    first_level(lines, given, most)?;
    close_levels(cat, source, lines, most, given, steps)
}

/// All that follows from the root facts, which are given: the least list in its order, each fact
/// with its cause, level by level. `Facts(most)` comes where there is no list of at most that many:
/// one more than that number is in each closed list. `most` is the setting's.
pub fn close_from<C: Catalogue, S: Source, L: Ledger>(
    alloc: Global,
    cat: &mut C,
    source: &mut S,
    mut given: Vec<(Fact, Cause)>,
    most: u32,
    steps: &mut Steps<L>,
) -> Result<IndexMap<Fact, Cause>, Stop<CloseFault>>
    requires limit { (S.setting source.old).max_facts ≡ most }
    requires fresh { OnPages (λ pages. S.tracks source.old pages []) (C.state cat.old) }
    requires roots { AreRoots (S.setting source.old) (reasons_in given.items) }
    ensures ok { IfOk result (λ m. OnPages
        (λ pages. IsReasons (inputs_of (S.setting source.old) pages) (reasons_in m.entries))
        (C.state cat.old)) }
    ensures few { IfOk result (λ m. length m.entries ≤ most) }
    ensures facts { OnFault result most (OnPages
        (λ pages. HasTooManyFacts (inputs_of (S.setting source.old) pages)) (C.state cat.old)) }
    ensures ticks { IfOk result (λ m. steps.new ≤ steps.old + ticks (facts_in m.entries)) }
    ensures most { steps.new ≤ steps.old + most }
    ensures setting { S.setting source.new ≡ S.setting source.old }
    ensures asked { OnlyAsked (has_failed result) (C.state cat.old) (C.state cat.new) }
    ensures tracks { IfOk result (λ m. OnPages
        (λ pages. S.tracks source.new pages (facts_in m.entries)) (C.state cat.old)) }
{
    let mut lines = IndexMap::new(alloc);
    close_lines(cat, source, &mut lines, most, &mut given, steps)?;
    Ok(lines)
}
