//! The closure of a setting.
ghost use Rattle.std.specs.Prelude.{◌≡◌, ◌+◌, ◌^◌, ◌<◌, ◌≤◌, [], true, IfOk, length};
ghost use Rattle.std.specs.Map.{keys_of};
ghost use Rattle.vk_spec.specs.Catalogues.{OnlyAsked, OnPages};
ghost use Rattle.vk_spec.specs.Settings as plain;
ghost use Rattle.vk_base.specs.Stops.{has_failed, was_out};
ghost use Rattle.vk_resolution.specs.Closures.{HasTooManyFacts, IsClosure};
ghost use Rattle.vk_resolution.specs.Faults.{first_faults_of};
ghost use Rattle.vk_resolution.specs.Givens.{Pages};
ghost use Rattle.vk_resolution.specs.Lines.{fault_line};
ghost use Rattle.vk_resolution.specs.Outcomes.{lines_of};
ghost use Rattle.vk_resolution.specs.Planner.{inputs_of};
ghost use Rattle.vk_resolution.specs.Reasons.{IsReasons, facts_of};
ghost use Rattle.vk_model.specs.FactViews.{reasons_view};
ghost use Rattle.vk_model.specs.FaultViews.{closure_view, faults_view};
ghost use Rattle.vk_model.specs.SettingViews.{setting_view};
ghost use Rattle.vk_worklist.specs.Entries.{AreRoots, facts_in, reasons_in};
ghost use Rattle.vk_worklist.specs.Faults.{OnFault};
ghost use Rattle.vk_worklist.specs.Rows.{AreRows};
ghost use Rattle.vk_worklist.specs.Ticks.{ticks};
ghost use Rattle.vk_close.specs.Kept.{HasNoTrouble, Tracks};

use crate::page_askers::PageAsker;
use crate::roots::root_facts;
use indexmap::IndexMap;
use std::alloc::Global;
use std::sync::ledger::Ledger;
use vk_base::{List, Memory, Outage, Steps, Stop};
use vk_catalogue::Catalogue;
use vk_faults::first_faults;
use vk_model::{Cause, Closure, Fact, Fault, Reason, Setting};
use vk_worklist::{CloseFault, Joins, close_from};

// Moves the lines of a worklist, as reasons, into an empty vector.
fn moved_to(mut reasons: Vec<Reason>, lines: IndexMap<Fact, Cause>) -> Result<List<Reason>, Memory>
    requires { reasons.items ≡ [] }
    ensures reasons { IfOk result (λ moved. reasons_view moved ≡ reasons_in lines.entries) }
    ensures len { IfOk result (λ moved. length moved ≡ length lines.entries) }
{
    for (fact, cause) in lines {
        reasons.push(Reason { fact, cause })?;
    }
    Ok(List::from_vec(reasons))
}

// The lines of a worklist as reasons, in a vector that has their size.
fn reasons_of(alloc: Global, lines: IndexMap<Fact, Cause>) -> Result<List<Reason>, Memory>
    ensures reasons { IfOk result (λ reasons. reasons_view reasons ≡ reasons_in lines.entries) }
    ensures len { IfOk result (λ reasons. length reasons ≡ length lines.entries) }
{
    let reasons = Vec::with_capacity(alloc, lines.len())?;
    moved_to(reasons, lines)
}

// The lines of the first phase, of which there are none where nothing was wrong.
fn faults_of<C: Catalogue>(
    alloc: Global,
    cat: &mut C,
    clean: bool,
    reasons: &List<Reason>,
) -> Result<List<Fault>, Outage>
    requires small { length reasons.now < 2 ^ 32 }
    ensures asked { OnlyAsked (was_out result) (C.state cat.old) (C.state cat.new) }
    ensures faults { IfOk result (λ faults. OnPages (λ pages. (setting : plain.Setting)
        → IsReasons (inputs_of setting pages) (reasons_view reasons.now)
        → (clean ≡ true → HasNoTrouble (inputs_of setting pages)
        (facts_of (reasons_view reasons.now)))
        → faults_view faults ≡ lines_of fault_line (first_faults_of (inputs_of setting pages)
        (facts_of (reasons_view reasons.now)))) (C.state cat.old)) }
{
    if clean {
        return Ok(List::new(alloc));
    }
    first_faults(alloc, cat, reasons.as_slice())
}

// The lines of a worklist that is closed, and whether nothing is wrong with any.
#[derive(Drop)]
struct Closed {
    lines: IndexMap<Fact, Cause>,
    clean: bool,
}

/// What facts bring up under a setting, asked of a catalogue. It has taken up nothing yet.
pub fn source_of<'a>(alloc: Global, setting: &'a Setting) -> Result<Joins<PageAsker<'a>>, Memory>
    ensures setting { IfOk result (λ s. s.asker.setting.now ≡ setting.now) }
    ensures tracks { IfOk result (λ s. (pages : Pages) → Tracks s.asker pages []) }
    ensures rows { IfOk result (λ s. (pages : Pages) →
        AreRows (inputs_of (setting_view s.asker.setting.now) pages)
        (keys_of s.asker.ports.entries) s.rows.items []) }
{
    Ok(Joins::new(alloc, PageAsker::new(alloc, setting)?))
}

// Closes the worklist of the root facts, by a source that has taken up nothing yet.
fn close_by<C: Catalogue, L: Ledger>(
    alloc: Global,
    cat: &mut C,
    setting: &Setting,
    most: u32,
    source: &mut Joins<PageAsker<'_>>,
    given: Vec<(Fact, Cause)>,
    steps: &mut Steps<L>,
) -> Result<Closed, Stop<CloseFault>>
    requires limit { setting.now.max_facts ≡ most }
    requires setting { source.old.asker.setting.now ≡ setting.now }
    requires tracks { (pages : Pages) → Tracks source.old.asker pages [] }
    requires rows { (pages : Pages) →
        AreRows (inputs_of (setting_view source.old.asker.setting.now) pages)
        (keys_of source.old.asker.ports.entries) source.old.rows.items [] }
    requires roots { AreRoots (setting_view setting.now) (reasons_in given.items) }
    ensures reasons { IfOk result (λ c. OnPages
        (λ pages. IsReasons (inputs_of (setting_view setting.now) pages)
        (reasons_in c.lines.entries)) (C.state cat.old)) }
    ensures clean { IfOk result (λ c. OnPages (λ pages. c.clean ≡ true → HasNoTrouble
        (inputs_of (setting_view setting.now) pages) (facts_in c.lines.entries))
        (C.state cat.old)) }
    ensures few { IfOk result (λ c. length c.lines.entries ≤ setting.now.max_facts) }
    ensures small { IfOk result (λ c. length c.lines.entries < 2 ^ 32) }
    ensures facts { OnFault result setting.now.max_facts (OnPages
        (λ pages. HasTooManyFacts (inputs_of (setting_view setting.now) pages))
        (C.state cat.old)) }
    ensures ticks { IfOk result
        (λ c. steps.new ≤ steps.old + ticks (facts_in c.lines.entries)) }
    ensures most { steps.new ≤ steps.old + setting.now.max_facts }
    ensures asked { OnlyAsked (has_failed result) (C.state cat.old) (C.state cat.new) }
{
    let lines = close_from(alloc, cat, source, given, most, steps)?;
    Ok(Closed {
        lines,
        clean: source.asker.is_clean(),
    })
}

// Closes the worklist of a setting.
fn close_setting<C: Catalogue, L: Ledger>(
    alloc: Global,
    cat: &mut C,
    setting: &Setting,
    steps: &mut Steps<L>,
) -> Result<Closed, Stop<CloseFault>>
    ensures reasons { IfOk result (λ c. OnPages
        (λ pages. IsReasons (inputs_of (setting_view setting.now) pages)
        (reasons_in c.lines.entries)) (C.state cat.old)) }
    ensures clean { IfOk result (λ c. OnPages (λ pages. c.clean ≡ true → HasNoTrouble
        (inputs_of (setting_view setting.now) pages) (facts_in c.lines.entries))
        (C.state cat.old)) }
    ensures few { IfOk result (λ c. length c.lines.entries ≤ setting.now.max_facts) }
    ensures small { IfOk result (λ c. length c.lines.entries < 2 ^ 32) }
    ensures facts { OnFault result setting.now.max_facts (OnPages
        (λ pages. HasTooManyFacts (inputs_of (setting_view setting.now) pages))
        (C.state cat.old)) }
    ensures ticks { IfOk result
        (λ c. steps.new ≤ steps.old + ticks (facts_in c.lines.entries)) }
    ensures most { steps.new ≤ steps.old + setting.now.max_facts }
    ensures asked { OnlyAsked (has_failed result) (C.state cat.old) (C.state cat.new) }
{
    let given = root_facts(alloc, setting)?;
    let mut source = match source_of(alloc, setting) {
        Ok(source) => source,
        Err(memory) => {
            drop(given);
            return Err(Stop::Memory(memory));
        }
    };
    let closed = close_by(
        alloc,
        cat,
        setting,
        setting.max_facts,
        &mut source,
        given,
        steps,
    );
    drop(source);
    closed
}

// The closure of a worklist that is closed: its reasons, and what is wrong.
fn told<C: Catalogue>(alloc: Global, cat: &mut C, closed: Closed) -> Result<Closure, Outage>
    requires small { length closed.lines.entries < 2 ^ 32 }
    ensures asked { OnlyAsked (was_out result) (C.state cat.old) (C.state cat.new) }
    ensures reasons { IfOk result (λ c. reasons_view c.reasons ≡ reasons_in closed.lines.entries) }
    ensures len { IfOk result (λ c. length c.reasons ≡ length closed.lines.entries) }
    ensures faults { IfOk result (λ c. OnPages (λ pages. (setting : plain.Setting)
        → IsReasons (inputs_of setting pages) (reasons_view c.reasons)
        → (closed.clean ≡ true → HasNoTrouble (inputs_of setting pages)
        (facts_of (reasons_view c.reasons)))
        → faults_view c.faults ≡ lines_of fault_line (first_faults_of (inputs_of setting pages)
        (facts_of (reasons_view c.reasons)))) (C.state cat.old)) }
{
    let reasons = reasons_of(alloc, closed.lines)?;
    let faults = faults_of(alloc, cat, closed.clean, &reasons)?;
    Ok(Closure { reasons, faults })
}

/// All that a project requires, in order, each fact with its cause, and what is wrong with the
/// files that it needs: the closure that the catalogue's pages and the setting give. The catalogue
/// is only asked. `Facts` comes with the setting's number exactly where the least list has more
/// facts than that: an answer has no more, and where there are too many, no closure has so few
/// (`a_closure_is_one_or_has_too_many_facts`). It takes at most one step for each visit and each
/// need of the root.
pub fn close<C: Catalogue, L: Ledger>(
    alloc: Global,
    cat: &mut C,
    setting: &Setting,
    steps: &mut Steps<L>,
) -> Result<Closure, Stop<CloseFault>>
    ensures closure { IfOk result (λ c. OnPages
        (λ pages. IsClosure (inputs_of (setting_view setting.now) pages) fault_line
        (closure_view c)) (C.state cat.old)) }
    ensures few { IfOk result (λ c. length c.reasons ≤ setting.now.max_facts) }
    ensures small { IfOk result (λ c. length c.reasons < 2 ^ 32) }
    ensures facts { OnFault result setting.now.max_facts (OnPages
        (λ pages. HasTooManyFacts (inputs_of (setting_view setting.now) pages))
        (C.state cat.old)) }
    ensures asked { OnlyAsked (has_failed result) (C.state cat.old) (C.state cat.new) }
    ensures ticks { IfOk result
        (λ c. steps.new ≤ steps.old + ticks (facts_of (reasons_view c.reasons))) }
    ensures most { steps.new ≤ steps.old + setting.now.max_facts }
{
    let closed = close_setting(alloc, cat, setting, steps)?;
    Ok(told(alloc, cat, closed)?)
}
