//! The bytes of a report. All lines go into one text.
ghost use Rattle.std.specs.Prelude.{◌≡◌, ◌++◌, List, ℕ, Some, flat_map, map};
ghost use Rattle.std.specs.Prelude.{codes, decimal, IfOk, OnOk, string_bytes};
ghost use Rattle.vk_resolution.specs.Lines.{ended, fault_line, numbered_lines};
ghost use Rattle.vk_resolution.specs.Lines.{reasons_text, report_text};
ghost use Rattle.vk_resolution.specs.Outcomes.{planned, refused};
ghost use Rattle.vk_model.specs.EarlyViews.{early_view};
ghost use Rattle.vk_model.specs.FactViews.{reasons_view};
ghost use Rattle.vk_model.specs.FaultViews.{faults_view, item_view, outcome_view};
ghost use Rattle.vk_report.specs.Reports.{early_report, faults_text, items_text, whole_report};

use std::alloc::Global;
use std::fmt;
use std::fmt::Write;
use vk_base::{List, Memory, Text};
use vk_model::lines::{early_line, fault_line};
use vk_model::{Early, Fault, Item, Outcome, Reason};

// Lines, each with its number in front, from 1 on.
fn push_numbered<L: fmt::Display>(report: &mut String, lines: &[L]) -> Result<(), Memory>
    ensures { (text : L → List ℕ) → ((line : L) → L.output line ≡ Some (text line))
        → OnOk result (string_bytes report.new
        ≡ string_bytes report.old ++ numbered_lines text 1 lines.now) }
{
    for (n, line) in lines.iter().enumerate() {
        writeln!(report, "{} {line}", n + 1)?;
    }
    Ok(())
}

// A word, and how many lines follow.
fn push_count(report: &mut String, word: &str, count: usize) -> Result<(), Memory>
    ensures { OnOk result (string_bytes report.new
        ≡ string_bytes report.old ++ ended (word.now ++ codes " " ++ decimal count)) }
{
    writeln!(report, "{word} {count}")?;
    Ok(())
}

// The reasons, and the last line.
fn push_reasons(report: &mut String, reasons: &List<Reason>) -> Result<(), Memory>
    ensures { OnOk result (string_bytes report.new
        ≡ string_bytes report.old ++ reasons_text (reasons_view reasons.now)) }
{
    push_count(report, "reasons", reasons.len())?;
    push_numbered(report, reasons.as_slice())?;
    report.push_str("end\n")?;
    Ok(())
}

// The items of a plan, after how many they are.
fn push_items(report: &mut String, items: &List<Item>) -> Result<(), Memory>
    ensures { OnOk result (string_bytes report.new
        ≡ string_bytes report.old ++ items_text (map item_view items.now)) }
{
    push_count(report, "plan", items.len())?;
    push_numbered(report, items.as_slice())?;
    Ok(())
}

fn push_fault_lines(alloc: Global, report: &mut String, faults: &[Fault]) -> Result<(), Memory>
    ensures { OnOk result (string_bytes report.new ≡ string_bytes report.old
        ++ flat_map (λ f. ended (fault_line f)) (faults_view faults.now)) }
{
    for fault in faults {
        let line = fault_line(alloc, fault)?;
        writeln!(report, "{line}")?;
    }
    Ok(())
}

// The fault lines, after how many they are.
fn push_faults(alloc: Global, report: &mut String, faults: &List<Fault>) -> Result<(), Memory>
    ensures { OnOk result (string_bytes report.new
        ≡ string_bytes report.old ++ faults_text (faults_view faults.now)) }
{
    push_count(report, "faults", faults.len())?;
    push_fault_lines(alloc, report, faults.as_slice())?;
    Ok(())
}

// How many bytes so many lines have, if each is as long as most are.
fn usual_bytes(lines: usize) -> usize {
    lines.saturating_mul(52)
}

fn planned_report(
    alloc: Global,
    items: &List<Item>,
    reasons: &List<Reason>,
) -> Result<String, Memory>
    ensures { IfOk result (λ report. string_bytes report
        ≡ report_text (planned (map item_view items.now) (reasons_view reasons.now))) }
{
    let lines = items.len().saturating_add(reasons.len());
    let mut report = String::with_capacity(alloc, usual_bytes(lines))?;
    report.push_str("vcpkg-plan 1\nstatus planned\n")?;
    push_items(&mut report, items)?;
    push_reasons(&mut report, reasons)?;
    Ok(report)
}

fn refused_report(
    alloc: Global,
    faults: &List<Fault>,
    reasons: &List<Reason>,
) -> Result<String, Memory>
    ensures { IfOk result (λ report. string_bytes report
        ≡ report_text (refused (faults_view faults.now) (reasons_view reasons.now))) }
{
    let mut report = String::from_str(alloc, "vcpkg-plan 1\nstatus refused\n")?;
    push_faults(alloc, &mut report, faults)?;
    push_reasons(&mut report, reasons)?;
    Ok(report)
}

fn early_report(alloc: Global, early: &Early) -> Result<String, Memory>
    ensures { IfOk result (λ report. string_bytes report ≡ early_report (early_view early.now)) }
{
    let line = early_line(alloc, early)?;
    let mut report = String::from_str(alloc, "vcpkg-plan 1\nstatus refused\nfaults 1\n")?;
    writeln!(report, "{line}")?;
    report.push_str("reasons 0\nend\n")?;
    Ok(report)
}

/// The report of what a project comes to. Each line ends with a line feed.
pub fn report_bytes(alloc: Global, outcome: &Outcome) -> Result<Text, Memory>
    ensures { IfOk result (λ t. t ≡ whole_report (outcome_view outcome.now)) }
{
    let report = match outcome {
        Outcome::Planned(plan, reasons) => planned_report(alloc, &plan.items, reasons)?,
        Outcome::Refused(faults, reasons) => refused_report(alloc, faults, reasons)?,
        Outcome::Early(early) => early_report(alloc, early)?,
    };
    Ok(Text::from_string(report))
}
