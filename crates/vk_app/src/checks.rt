//! A report in a file against what a project comes to.
ghost use Rattle.std.specs.Prelude.{◌≡◌, ◌<◌, ◌≤◌, IfOk, IfSome, List, None, Ok, Some, length};
ghost use Rattle.vk_spec.specs.Catalogues.{OnlyAsked, OnPages};
ghost use Rattle.vk_spec.specs.Lists.{NoRepeats};
ghost use Rattle.vk_spec.specs.Paths.{Path};
ghost use Rattle.vk_spec.specs.Standing.{OnFiles};
ghost use Rattle.vk_base.specs.Stops.{has_failed};
ghost use Rattle.vk_json.specs.Words.{word_of};
ghost use Rattle.vk_files.specs.Kept.{paths_of};
ghost use Rattle.vk_model.specs.EarlyViews.{early_view};
ghost use Rattle.vk_model.specs.FaultViews.{outcome_view};
ghost use Rattle.vk_model.specs.SettingViews.{setting_view};
ghost use Rattle.vk_model.specs.declared.projects.Project.{Project};
ghost use Rattle.vk_opening.specs.Views.{layout_view};
ghost use Rattle.vk_world.specs.Worlds.{state_of};
ghost use Rattle.vk_check.specs.declared.verdicts.Verdict.TheVariants as the_verdict;
ghost use Rattle.vk_app.specs.declared.requests.Task.TheVariants as task;
ghost use Rattle.vk_app.specs.Answers.{ShowsEarly, ShowsSettled};
ghost use Rattle.vk_app.specs.Asked.{AsksNothing, IsOfPorts, to_plan};
ghost use Rattle.vk_app.specs.Once.{ReadsFor, ReadsOnce};
ghost use Rattle.vk_app.specs.Checked.{EndsIn, Judges, ReadsReport, ReportIs, ShowsJudged};
ghost use Rattle.vk_app.specs.Checked.{shown_judged, shown_unread};
ghost use Rattle.vk_app.specs.Checks.{ShowsVerdict, most_report, no_report, verdict_shown};
ghost use Rattle.vk_app.specs.Ends.{EndsFor, EndsWith, end_view};
ghost use Rattle.vk_app.specs.Resolved.{IsReady};
ghost use Rattle.vk_app.specs.Shown.{printed};

use crate::endings::{end_of_stop, or_memory};
use crate::ends::{End, Ended};
use std::alloc::Global;
use std::marker::Brand;
use std::sync::ledger::{Blank, Ledger};
use vk_base::{List, Memory, Steps, Stop, Text, TreePath};
use vk_check::{Verdict, check, compare};
use vk_files::Archive;
use vk_json::Why;
use vk_model::lines::file_line;
use vk_model::{Early, Outcome, Project, Setting};
use vk_opening::Layout;
use vk_report::report_bytes;
use vk_tree::{ReadFault, Tree};
use vk_worklist::CloseFault;
use vk_world::{Parts, World};

// The longest report that is read, in bytes.
const MOST_REPORT: u64 = 268_435_456;

// The bytes of the report at a path.
fn read_report<T: Tree>(
    archive: &mut Archive<T>,
    path: &TreePath,
) -> Result<List<u8>, Stop<ReadFault>>
    ensures seen { OnFiles (ReportIs path.now result) (T.state archive.old.tree) }
    ensures small { IfOk result (λ bytes. length bytes ≤ most_report) }
    ensures reads { ReadsReport path.now (has_failed result) (T.state archive.old.tree)
        (T.state archive.new.tree) }
    ensures kept { archive.new.kept ≡ archive.old.kept }
{
    archive.read_apart(path, MOST_REPORT)
}

// The line of a report that isn't as it has to be.
fn bad_report(alloc: Global, path: &TreePath, why: Why) -> Result<End, Memory>
    ensures { IfOk result (λ e. end_view e ≡ printed 1 (no_report path.now (word_of why))) }
{
    let line = file_line(alloc, path, &Text::new(alloc), why)?;
    let line = line.as_str();
    let text = format!(in alloc; "vcpkg-check 1\n{line}\n")?;
    Ok(End::Printed(1, Text::from_string(text)))
}

// How it is told that there is no report to judge.
fn end_of_unread(alloc: Global, path: &TreePath, stop: &Stop<ReadFault>) -> End
    ensures { EndsWith (shown_unread path.now stop.now) (end_view result) }
{
    match stop {
        Stop::Fault(ReadFault::Missing) => or_memory(bad_report(alloc, path, Why::Absent)),
        Stop::Fault(ReadFault::TooLarge) => or_memory(bad_report(alloc, path, Why::Large)),
        Stop::Failed => End::TreeFailed,
        Stop::Memory(_) => End::Memory,
    }
}

// A line that differs, and the one that is wanted there.
fn differs(alloc: Global, line: u32, want: &List<u8>) -> Result<End, Memory>
    ensures { IfOk result (λ e. end_view e ≡ verdict_shown (the_verdict.No line (Some want.now))) }
{
    let head = format!(in alloc; "vcpkg-check 1\nno {line}\nwant ")?;
    let mut bytes = List::from_slice(alloc, head.as_bytes())?;
    bytes.extend_from_slice(want.as_slice())?;
    bytes.push(b'\n')?;
    Ok(End::Written(1, bytes))
}

// A line where none is wanted.
fn goes_on(alloc: Global, line: u32) -> Result<End, Memory>
    ensures { IfOk result (λ e. end_view e ≡ verdict_shown (the_verdict.No line None)) }
{
    let text = format!(in alloc; "vcpkg-check 1\nno {line}\nwant-nothing\n")?;
    Ok(End::Printed(1, Text::from_string(text)))
}

// The report is the wanted one.
fn agrees(alloc: Global) -> Result<End, Memory>
    ensures { IfOk result (λ e. end_view e ≡ verdict_shown the_verdict.Yes) }
{
    Ok(End::Printed(0, Text::from_str(alloc, "vcpkg-check 1\nyes\n")?))
}

fn verdict_end(alloc: Global, verdict: &Verdict) -> Result<End, Memory>
    ensures { IfOk result (λ e. end_view e ≡ verdict_shown verdict.now) }
{
    match verdict {
        Verdict::Yes => agrees(alloc),
        Verdict::No {
            line,
            want: Some(want),
        } => differs(alloc, *line, want),
        Verdict::No { line, want: None } => goes_on(alloc, *line),
    }
}

// How the verdict on a report is told, or that the project requires too much.
fn end_of_judged(
    alloc: Global,
    project: &Project,
    answer: &Result<Verdict, Stop<CloseFault>>,
) -> End
    ensures { EndsWith (shown_judged project.now answer.now) (end_view result) }
{
    match answer {
        Ok(verdict) => or_memory(verdict_end(alloc, verdict)),
        Err(stop) => end_of_stop(alloc, project, stop),
    }
}

// The verdict on a report's bytes, by the report of an outcome.
fn against(alloc: Global, bytes: &[u8], outcome: &Outcome) -> Result<End, Memory>
    requires { length bytes.now ≤ most_report }
    ensures { IfOk result (λ e. ShowsVerdict bytes.now (outcome_view outcome.now) (end_view e)) }
{
    let want = report_bytes(alloc, outcome)?;
    let verdict = compare(alloc, bytes, want.as_bytes())?;
    verdict_end(alloc, &verdict)
}

// How a report's bytes are told against the report of an outcome.
fn end_against(alloc: Global, bytes: &[u8], outcome: &Outcome) -> End
    requires { length bytes.now ≤ most_report }
    ensures { EndsIn (ShowsVerdict bytes.now (outcome_view outcome.now)) (end_view result) }
{
    match against(alloc, bytes, outcome) {
        Ok(end) => end,
        Err(_) => End::Memory,
    }
}

/// A project, and where the report is that is checked against it.
#[derive(Clone, Copy)]
pub struct Checked<'a> {
    pub project: &'a Project,
    pub report: &'a TreePath,
}

// What a setting and the pages of a world say of a report's bytes, with a count of steps.
fn judged_by<T: Tree, L: Ledger>(
    alloc: Global,
    bytes: &[u8],
    setting: &Setting,
    world: &mut World<T>,
    blank: Blank,
) -> Result<Verdict, Stop<CloseFault>>
    requires name { blank.name ≡ L.name }
    requires parts { blank.parts ≡ L.parts }
    requires some { 0 < blank.parts }
    requires small { length bytes.now ≤ most_report }
    ensures content { OnPages (λ pages. Judges (setting_view setting.now) pages bytes.now result)
        (state_of T.state world.old) }
    ensures asked { OnlyAsked (has_failed result) (state_of T.state world.old)
        (state_of T.state world.new) }
{
    let mut steps = Steps::<L>::new(blank);
    check(alloc, bytes, world, setting, &mut steps)
}

// Judges a report's bytes under a setting, over the archive on which it was opened.
fn judge_on<T: Tree>(
    alloc: Global,
    checked: Checked<'_>,
    bytes: &[u8],
    setting: &Setting,
    layout: Layout,
    archive: Archive<T>,
) -> Ended<T>
    requires ready { IfSome (T.state archive.tree).told
        (λ t. IsReady checked.project.now setting.now) }
    requires small { length bytes.now ≤ most_report }
    ensures { EndsFor (Ok (task.Check checked.entry.project.now checked.entry.report.now))
        (ShowsJudged bytes.now (setting_view setting.now) (layout_view layout))
        (ReadsOnce (IsOfPorts (layout_view layout) to_plan) (paths_of archive.kept))
        (end_view result.end) (T.state archive.tree) (T.state result.tree) }
{
    let mut world = World::on(archive, layout);
    let answer = judged_by::<T, Brand>(alloc, bytes, setting, &mut world, Blank::new(1));
    let Parts { tree, read } = world.into_parts();
    Ended {
        end: end_of_judged(alloc, checked.project, &answer),
        tree,
        read: Some(read),
        outcome: None,
    }
}

/// Checks a report under a setting, over the archive on which it was opened.
pub fn check_on<T: Tree>(
    alloc: Global,
    checked: Checked<'_>,
    setting: &Setting,
    layout: Layout,
    mut archive: Archive<T>,
) -> Ended<T>
    requires { IfSome (T.state archive.tree).told
        (λ t. IsReady checked.project.now setting.now) }
    ensures { NoRepeats (paths_of archive.kept)
        → EndsFor (Ok (task.Check checked.entry.project.now checked.entry.report.now))
        (ShowsSettled (task.Check checked.entry.project.now checked.entry.report.now)
        (setting_view setting.now) (layout_view layout))
        (ReadsFor (Ok (task.Check checked.entry.project.now checked.entry.report.now))
        (IsOfPorts (layout_view layout)) (paths_of archive.kept))
        (end_view result.end) (T.state archive.tree) (T.state result.tree) }
{
    match read_report(&mut archive, checked.report) {
        Ok(bytes) => judge_on(alloc, checked, bytes.as_slice(), setting, layout, archive),
        Err(stop) => {
            drop(layout);
            Ended {
                end: end_of_unread(alloc, checked.report, &stop),
                tree: archive.into_tree(),
                read: None,
                outcome: None,
            }
        }
    }
}

/// Checks a report against an early line, over a tree of which nothing else is read.
pub fn check_refused<T: Tree>(
    alloc: Global,
    report: &TreePath,
    early: Early,
    mut archive: Archive<T>,
) -> Ended<T>
    ensures { (project : Project) (earlier : List Path) → NoRepeats earlier →
        EndsFor (Ok (task.Check project report.now))
        (ShowsEarly (task.Check project report.now) (early_view early))
        (ReadsFor (Ok (task.Check project report.now)) AsksNothing earlier)
        (end_view result.end) (T.state archive.tree) (T.state result.tree) }
{
    let outcome = Outcome::Early(early);
    match read_report(&mut archive, report) {
        Ok(bytes) => Ended {
            end: end_against(alloc, bytes.as_slice(), &outcome),
            tree: archive.into_tree(),
            read: None,
            outcome: Some(Ok(outcome)),
        },
        Err(stop) => Ended {
            end: end_of_unread(alloc, report, &stop),
            tree: archive.into_tree(),
            read: None,
            outcome: Some(Ok(outcome)),
        },
    }
}
