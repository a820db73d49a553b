ghost use Rattle.std.specs.Prelude.{◌≡◌, ◌+◌, ◌++◌, ◌<◌, ◌≤◌, ◌∷◌, [], OnOk, drop, length, take};
ghost use Rattle.vk_spec.specs.Lists.{NoRepeats};
ghost use Rattle.vk_spec.specs.Catalogues.{OnlyAsked, OnPages};
ghost use Rattle.vk_base.specs.Stops.{has_failed};
ghost use Rattle.vk_resolution.specs.Closing.{IsClosing};
ghost use Rattle.vk_resolution.specs.Closures.{HasTooManyFacts};
ghost use Rattle.vk_resolution.specs.Planner.{inputs_of};
ghost use Rattle.vk_model.specs.FactViews.{fact_view};
ghost use Rattle.vk_worklist.specs.Entries.{reasons_in, facts_in, IsNextLevel};
ghost use Rattle.vk_worklist.specs.Faults.{OnFault};
ghost use Rattle.vk_worklist.specs.Ticks.{ticks};

use crate::faults::CloseFault;
use crate::notes::note_all;
use crate::orders::put_in_order;
use crate::sources::Source;
use indexmap::IndexMap;
use std::alloc::AllocError;
use std::sync::ledger::Ledger;
use vk_base::{Steps, Stop};
use vk_catalogue::Catalogue;
use vk_model::{Cause, Fact};

// Puts the fresh facts, which stand behind the settled lines, in order.
pub(crate) fn next_level(
    lines: &mut IndexMap<Fact, Cause>,
    settled: usize,
) -> Result<(), AllocError>
    requires within { settled ≤ length lines.old.entries }
    requires distinct { NoRepeats (facts_in lines.old.entries) }
    ensures ok { OnOk result (IsNextLevel (reasons_in (take settled lines.old.entries))
        (reasons_in (drop settled lines.old.entries)) (reasons_in lines.new.entries)) }
    ensures len { OnOk result (length lines.new.entries ≡ length lines.old.entries) }
    ensures distinct { OnOk result (NoRepeats (facts_in lines.new.entries)) }
{
    put_in_order(lines, settled)
}

// The fact of a line, counted from 0.
fn line_at(lines: &IndexMap<Fact, Cause>, n: usize) -> &Fact
    requires { n < length lines.now.entries }
    ensures { take (n + 1) (facts_in lines.now.entries)
        ≡ take n (facts_in lines.now.entries) ++ fact_view result.now ∷ [] }
{
    lines.get_index(n).unwrap().0
}

// Takes up the facts of all lines that aren't taken up yet. What they bring up that is new stands
// behind them.
pub(crate) fn take_up_level<C: Catalogue, S: Source, L: Ledger>(
    cat: &mut C,
    source: &mut S,
    lines: &mut IndexMap<Fact, Cause>,
    from: usize,
    most: u32,
    brought: &mut Vec<(Fact, Cause)>,
    steps: &mut Steps<L>,
) -> Result<(), Stop<CloseFault>>
    requires within { from ≤ length lines.old.entries }
    requires distinct { NoRepeats (facts_in lines.old.entries) }
    requires few { length lines.old.entries ≤ most }
    requires limit { (S.setting source.old).max_facts ≡ most }
    requires none { brought.old.items ≡ [] }
    requires tracks { OnPages
        (λ pages. S.tracks source.old pages (take from (facts_in lines.old.entries)))
        (C.state cat.old) }
    requires closing { OnPages
        (λ pages. IsClosing (inputs_of (S.setting source.old) pages) (reasons_in lines.old.entries)
        (take from (facts_in lines.old.entries)) [])
        (C.state cat.old) }
    ensures ticks { steps.new + ticks (take from (facts_in lines.old.entries))
        ≤ steps.old + ticks (facts_in lines.old.entries) }
    ensures setting { S.setting source.new ≡ S.setting source.old }
    ensures asked { OnlyAsked (has_failed result) (C.state cat.old) (C.state cat.new) }
    ensures none { OnOk result (brought.new.items ≡ []) }
    ensures few { OnOk result (length lines.new.entries ≤ most) }
    ensures distinct { OnOk result (NoRepeats (facts_in lines.new.entries)) }
    ensures kept { OnOk result
        (take (length lines.old.entries) lines.new.entries ≡ lines.old.entries) }
    ensures tracks { OnOk result (OnPages
        (λ pages. S.tracks source.new pages (facts_in lines.old.entries)) (C.state cat.new)) }
    ensures closing { OnOk result (OnPages
        (λ pages. IsClosing (inputs_of (S.setting source.new) pages) (reasons_in lines.old.entries)
        (facts_in lines.old.entries)
        (reasons_in (drop (length lines.old.entries) lines.new.entries)))
        (C.state cat.new)) }
    ensures facts { OnFault result most (OnPages
        (λ pages. HasTooManyFacts (inputs_of (S.setting source.new) pages)) (C.state cat.new)) }
{
    let settled = lines.len();
    let mut taken = from;
    while taken < settled {
        let fact = line_at(lines, taken);
        source.take_up(cat, lines, taken, fact, brought, steps)?;
        note_all(lines, most, brought)?;
        taken += 1;
    }
    Ok(())
}
