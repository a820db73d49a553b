//! How what a run found is told: each answer has its end.
ghost use Rattle.std.specs.Prelude.{◌≡◌, ◌≢◌, Ok, Err, IfOk, map};
ghost use Rattle.vk_base.specs.declared.limits.Limit.TheVariants as limit;
ghost use Rattle.vk_model.specs.FaultViews.{outcome_view};
ghost use Rattle.vk_model.specs.SettingViews.{instance_view};
ghost use Rattle.vk_app.specs.Shown.{Shown, limit_line, limit_name, limit_number, printed};
ghost use Rattle.vk_app.specs.Shown.{shown_for, told, words_line};
ghost use Rattle.vk_app.specs.Ends.{EndsWith, WordsEnd, end_view, shown_of, shown_out};
ghost use Rattle.vk_app.specs.Resolved.{resolution_of};
ghost use Rattle.vk_app.specs.Texts.{not_planned};

use crate::ends::End;
use std::alloc::Global;
use vk_base::{Instance, Limit, Memory, Outage, Stop, Text, Unread};
use vk_model::lines::InstanceTokens;
use vk_model::{Outcome, Project};
use vk_report::report_bytes;
use vk_words::{WordFault, fault_text};
use vk_worklist::CloseFault;

/// What memory ran out for has an end of its own.
pub fn or_memory(end: Result<End, Memory>) -> End
    ensures { (shown : Shown) → shown.status ≢ 4 → IfOk end (λ e. end_view e ≡ shown)
        → EndsWith shown (end_view result) }
{
    match end {
        Ok(end) => end,
        Err(_) => End::Memory,
    }
}

fn words_text(alloc: Global, fault: WordFault) -> Result<End, Memory>
    ensures { IfOk result (λ e. end_view e ≡ told 2 (words_line fault)) }
{
    let text = fault_text(alloc, &fault)?;
    let line = format!(in alloc; "words: {text}\n")?;
    Ok(End::Told(2, Text::from_string(line)))
}

/// How a malformed command line is told.
pub fn end_of_words(alloc: Global, unread: Unread<WordFault>) -> End
    ensures { WordsEnd unread (end_view result) }
{
    match unread {
        Unread::Fault(fault) => or_memory(words_text(alloc, fault)),
        Unread::Memory(_) => End::Memory,
    }
}

fn limit_name(limit: Limit) -> &'static str
    ensures { result.now ≡ limit_name limit }
{
    match limit {
        Limit::Facts(_) => "facts",
        Limit::Entries => "entries",
        Limit::Files => "files",
        Limit::Depth => "depth",
        Limit::Bytes(_) => "bytes",
        Limit::Tmp => "tmp",
        Limit::Damaged => "damaged",
    }
}

fn limit_number(limit: Limit) -> u64
    ensures { result ≡ limit_number limit }
{
    match limit {
        Limit::Facts(most) => u64::from(most),
        Limit::Entries => 100_000,
        Limit::Files => 1_000_000,
        Limit::Depth => 64,
        Limit::Bytes(most) => most,
        Limit::Tmp => 10_000,
        Limit::Damaged => 10_000,
    }
}

fn limit_text(alloc: Global, limit: Limit) -> Result<End, Memory>
    ensures { IfOk result (λ e. end_view e ≡ told 6 (limit_line limit)) }
{
    let name = limit_name(limit);
    let number = limit_number(limit);
    let line = format!(in alloc; "limit {name} {number}\n")?;
    Ok(End::Told(6, Text::from_string(line)))
}

/// How a limit that was passed is told.
pub fn end_of_limit(alloc: Global, limit: Limit) -> End
    ensures { EndsWith (told 6 (limit_line limit)) (end_view result) }
{
    or_memory(limit_text(alloc, limit))
}

/// How it is told that a call of the tree failed, or that memory ran out.
pub fn end_of_outage(outage: &Outage) -> End
    ensures { end_view result ≡ shown_out outage.now }
{
    match outage {
        Outage::Failed => End::TreeFailed,
        Outage::Memory(_) => End::Memory,
    }
}

// 0 for a plan, 1 for a refusal.
fn status_of(outcome: &Outcome) -> u8
    ensures { result ≡ (shown_for (resolution_of (outcome_view outcome.now))).status }
{
    match outcome {
        Outcome::Planned(_, _) => 0,
        Outcome::Refused(_, _) => 1,
        Outcome::Early(_) => 1,
    }
}

fn report(alloc: Global, outcome: &Outcome) -> Result<End, Memory>
    ensures { IfOk result
        (λ e. end_view e ≡ shown_for (resolution_of (outcome_view outcome.now))) }
{
    let report = report_bytes(alloc, outcome)?;
    Ok(End::Printed(status_of(outcome), report))
}

/// How an outcome is told: by its report.
pub fn end_of_outcome(alloc: Global, outcome: &Outcome) -> End
    ensures { EndsWith (shown_for (resolution_of (outcome_view outcome.now))) (end_view result) }
{
    or_memory(report(alloc, outcome))
}

/// How it is told that a project has no outcome.
pub fn end_of_stop(alloc: Global, project: &Project, stop: &Stop<CloseFault>) -> End
    ensures { EndsWith (shown_of project.now (Err stop.now)) (end_view result) }
{
    match stop {
        Stop::Fault(_) => end_of_limit(alloc, Limit::Facts(project.max_facts)),
        Stop::Failed => End::TreeFailed,
        Stop::Memory(_) => End::Memory,
    }
}

/// How it is told what a project comes to.
pub fn end_of_resolved(
    alloc: Global,
    project: &Project,
    outcome: &Result<Outcome, Stop<CloseFault>>,
) -> End
    ensures { EndsWith (shown_of project.now outcome.now) (end_view result) }
{
    match outcome {
        Ok(outcome) => end_of_outcome(alloc, outcome),
        Err(stop) => end_of_stop(alloc, project, stop),
    }
}

fn unplanned_text(alloc: Global, instance: &Instance) -> Result<End, Memory>
    ensures { IfOk result (λ e. end_view e
        ≡ printed 1 (not_planned (instance_view instance.now))) }
{
    let instance = InstanceTokens(instance);
    let text = format!(in alloc; "vcpkg-abi 1\nnot-planned {instance}\n")?;
    Ok(End::Printed(1, Text::from_string(text)))
}

/// How it is told that an instance isn't planned.
pub fn end_of_unplanned(alloc: Global, instance: &Instance) -> End
    ensures { EndsWith (printed 1 (not_planned (instance_view instance.now)))
        (end_view result) }
{
    or_memory(unplanned_text(alloc, instance))
}
