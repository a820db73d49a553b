//! Whether reasons are a certificate: each line is taken up once, and what it brings up is looked
//! for on the lines.
ghost use Rattle.std.specs.Prelude.{◌≡◌, ◌+◌, ◌<◌, ◌≤◌, ◌^◌, [], true, IfOk, MatchBool, OnOk};
ghost use Rattle.std.specs.Prelude.{length, take};
ghost use Rattle.vk_spec.specs.Lists.{NoRepeats};
ghost use Rattle.vk_spec.specs.Catalogues.{OnlyAsked, OnPages};
ghost use Rattle.vk_base.specs.Stops.{was_out};
ghost use Rattle.vk_resolution.specs.Planner.{inputs_of};
ghost use Rattle.vk_worklist.specs.Entries.{AreRoots, facts_in, reasons_in};
ghost use Rattle.vk_worklist.specs.Ticks.{ticks};
ghost use Rattle.vk_check.specs.Certificates.{IsCertificate};
ghost use Rattle.vk_check.specs.Certifying.{IsCertified, IsMarked};

use crate::claims::fact_on;
use crate::marks::{is_marked, no_marks, note_all};
use indexmap::IndexMap;
use std::alloc::Global;
use std::sync::ledger::Ledger;
use vk_base::{Outage, Steps};
use vk_catalogue::Catalogue;
use vk_model::{Cause, Fact};
use vk_worklist::Source;

// Takes up the next line, which is shown; tells whether all that it brings up stands on lines.
fn take_up_line<C: Catalogue, S: Source, L: Ledger>(
    cat: &mut C,
    source: &mut S,
    lines: &IndexMap<Fact, Cause>,
    place: usize,
    marks: &mut Vec<bool>,
    brought: &mut Vec<(Fact, Cause)>,
    steps: &mut Steps<L>,
) -> Result<bool, Outage>
    requires small { length lines.now.entries < 2 ^ 32 }
    requires within { place < length lines.now.entries }
    requires distinct { NoRepeats (facts_in lines.now.entries) }
    requires long { length marks.old.items ≡ length lines.now.entries }
    requires marked { IsMarked marks.old.items place }
    requires none { brought.old.items ≡ [] }
    requires tracks { OnPages
        (λ pages. S.tracks source.old pages (take place (facts_in lines.now.entries)))
        (C.state cat.old) }
    requires certified { OnPages (λ pages. IsCertified (inputs_of (S.setting source.old) pages)
        (reasons_in lines.now.entries) place marks.old.items) (C.state cat.old) }
    ensures ticks { steps.new + ticks (take place (facts_in lines.now.entries))
        ≤ steps.old + ticks (take (place + 1) (facts_in lines.now.entries)) }
    ensures setting { S.setting source.new ≡ S.setting source.old }
    ensures asked { OnlyAsked (was_out result) (C.state cat.old) (C.state cat.new) }
    ensures long { length marks.new.items ≡ length marks.old.items }
    ensures none { IfOk result (λ goes. goes ≡ true → brought.new.items ≡ []) }
    ensures tracks { OnOk result (OnPages
        (λ pages. S.tracks source.new pages (take (place + 1) (facts_in lines.now.entries)))
        (C.state cat.new)) }
    ensures certified { IfOk result (λ goes. OnPages (λ pages. MatchBool goes
        (IsCertified (inputs_of (S.setting source.new) pages) (reasons_in lines.now.entries)
        (place + 1) marks.new.items)
        (IsCertificate (inputs_of (S.setting source.new) pages) (reasons_in lines.now.entries)
        → ⊥)) (C.state cat.new)) }
{
    let fact = fact_on(lines, place);
    source.take_up(cat, lines, place, fact, brought, steps)?;
    Ok(note_all(lines, marks, brought))
}

// Takes up all lines, as long as each is shown and nothing is missing.
fn certify_lines<C: Catalogue, S: Source, L: Ledger>(
    cat: &mut C,
    source: &mut S,
    lines: &IndexMap<Fact, Cause>,
    marks: &mut Vec<bool>,
    brought: &mut Vec<(Fact, Cause)>,
    steps: &mut Steps<L>,
) -> Result<bool, Outage>
    requires small { length lines.now.entries < 2 ^ 32 }
    requires distinct { NoRepeats (facts_in lines.now.entries) }
    requires long { length marks.old.items ≡ length lines.now.entries }
    requires none { brought.old.items ≡ [] }
    requires tracks { OnPages (λ pages. S.tracks source.old pages []) (C.state cat.old) }
    requires certified { OnPages (λ pages. IsCertified (inputs_of (S.setting source.old) pages)
        (reasons_in lines.now.entries) 0 marks.old.items) (C.state cat.old) }
    ensures ticks { steps.new ≤ steps.old + ticks (facts_in lines.now.entries) }
    ensures asked { OnlyAsked (was_out result) (C.state cat.old) (C.state cat.new) }
    ensures certified { IfOk result (λ holds. OnPages (λ pages. MatchBool holds
        (IsCertificate (inputs_of (S.setting source.old) pages) (reasons_in lines.now.entries))
        (IsCertificate (inputs_of (S.setting source.old) pages) (reasons_in lines.now.entries)
        → ⊥)) (C.state cat.old)) }
{
    let mut place = 0;
    while place < lines.len() {
        if !is_marked(marks, place) {
            return Ok(false);
        }
        if !take_up_line(cat, source, lines, place, marks, brought, steps)? {
            return Ok(false);
        }
        place += 1;
    }
    Ok(true)
}

/// Whether reasons on lines are a certificate, by a source that has taken up nothing yet. The root
/// facts are given.
pub(crate) fn certify_from<C: Catalogue, S: Source, L: Ledger>(
    alloc: Global,
    cat: &mut C,
    source: &mut S,
    lines: &IndexMap<Fact, Cause>,
    given: &mut Vec<(Fact, Cause)>,
    steps: &mut Steps<L>,
) -> Result<bool, Outage>
    requires small { length lines.now.entries < 2 ^ 32 }
    requires distinct { NoRepeats (facts_in lines.now.entries) }
    requires tracks { OnPages (λ pages. S.tracks source.old pages []) (C.state cat.old) }
    requires roots { AreRoots (S.setting source.old) (reasons_in given.old.items) }
    ensures ticks { steps.new ≤ steps.old + ticks (facts_in lines.now.entries) }
    ensures asked { OnlyAsked (was_out result) (C.state cat.old) (C.state cat.new) }
    ensures certified { IfOk result (λ holds. OnPages (λ pages. MatchBool holds
        (IsCertificate (inputs_of (S.setting source.old) pages) (reasons_in lines.now.entries))
        (IsCertificate (inputs_of (S.setting source.old) pages) (reasons_in lines.now.entries)
        → ⊥)) (C.state cat.old)) }
{
    let mut marks = no_marks(alloc, lines.len())?;
    if !note_all(lines, &mut marks, given) {
        return Ok(false);
    }
    certify_lines(cat, source, lines, &mut marks, given, steps)
}
