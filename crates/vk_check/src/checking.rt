//! A report against the one that a catalogue's pages and a setting have.
ghost use Rattle.std.specs.Prelude.{◌<◌, ◌^◌, IfOk, length};
ghost use Rattle.vk_spec.specs.Catalogues.{OnlyAsked, OnPages};
ghost use Rattle.vk_base.specs.Stops.{has_failed};
ghost use Rattle.vk_resolution.specs.Closures.{HasTooManyFacts};
ghost use Rattle.vk_resolution.specs.Planner.{inputs_of};
ghost use Rattle.vk_model.specs.FaultViews.{outcome_view};
ghost use Rattle.vk_model.specs.SettingViews.{setting_view};
ghost use Rattle.vk_report.specs.Reports.{whole_report};
ghost use Rattle.vk_worklist.specs.Faults.{OnFault};
ghost use Rattle.vk_check.specs.Checked.{IsChecked};
ghost use Rattle.vk_check.specs.Verdicts.{IsVerdict};

use crate::comparing::compare_lines;
use crate::verdicts::Verdict;
use std::alloc::Global;
use std::sync::ledger::Ledger;
use vk_base::{Memory, Steps, Stop};
use vk_catalogue::Catalogue;
use vk_close::CloseFault;
use vk_model::{Outcome, Setting};
use vk_report::report_bytes;
use vk_resolve::resolve;

// Compares a report with that of an outcome.
fn against(alloc: Global, report: &[u8], outcome: &Outcome) -> Result<Verdict, Memory>
    requires { length report.now < 2 ^ 32 }
    ensures { IfOk result (IsVerdict report.now (whole_report (outcome_view outcome.now))) }
{
    let want = report_bytes(alloc, outcome)?;
    compare_lines(alloc, report, want.as_bytes())
}

// Compares a report with that of an outcome that isn't needed again.
fn against_last(alloc: Global, report: &[u8], outcome: Outcome) -> Result<Verdict, Memory>
    requires { length report.now < 2 ^ 32 }
    ensures { IfOk result (IsVerdict report.now (whole_report (outcome_view outcome))) }
{
    against(alloc, report, &outcome)
}

/// Whether a report is the one that the pages of a catalogue and a setting have; if not, the first
/// line at which it differs, and the wanted line there, `None` where the defined report has ended.
/// It plans again and compares. `Facts` comes with the setting's number exactly where the project
/// requires more facts than that. `Failed` comes only where the count of faults may have increased.
/// The catalogue is only asked. It has the condition that the report has fewer than 2^32 bytes.
pub fn check<C: Catalogue, L: Ledger>(
    alloc: Global,
    report: &[u8],
    cat: &mut C,
    setting: &Setting,
    steps: &mut Steps<L>,
) -> Result<Verdict, Stop<CloseFault>>
    requires { length report.now < 2 ^ 32 }
    ensures verdict { IfOk result (λ verdict. OnPages (λ pages. IsChecked
        (setting_view setting.now) pages report.now verdict) (C.state cat.old)) }
    ensures facts { OnFault result setting.now.max_facts (OnPages
        (λ pages. HasTooManyFacts (inputs_of (setting_view setting.now) pages))
        (C.state cat.old)) }
    ensures asked { OnlyAsked (has_failed result) (C.state cat.old) (C.state cat.new) }
{
    let outcome = resolve(alloc, cat, setting, steps)?;
    Ok(against_last(alloc, report, outcome)?)
}
