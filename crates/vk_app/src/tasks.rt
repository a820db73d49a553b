//! What is done for a task, over a tree.
ghost use Rattle.std.specs.Prelude.{◌≡◌, ◌<◌, ◌≤◌, [], IfOk, IfSome, List, Ok};
ghost use Rattle.vk_spec.specs.Lists.{NoRepeats};
ghost use Rattle.vk_spec.specs.Catalogues.{OnlyAsked, OnPages};
ghost use Rattle.vk_base.specs.Stops.{has_failed};
ghost use Rattle.vk_spec.specs.Paths.{Path};
ghost use Rattle.vk_files.specs.Kept.{paths_of};
ghost use Rattle.vk_model.specs.EarlyViews.{early_view};
ghost use Rattle.vk_model.specs.SettingViews.{setting_view};
ghost use Rattle.vk_opening.specs.Views.{layout_view};
ghost use Rattle.vk_world.specs.Worlds.{state_of};
ghost use Rattle.vk_app.specs.declared.requests.Task.TheVariants as task;
ghost use Rattle.vk_pages.specs.Pages.{page_of};
ghost use Rattle.vk_app.specs.Answers.{ShowsEarly, ShowsProject, ShowsSettled};
ghost use Rattle.vk_app.specs.Asked.{AsksNothing, IsOfPorts, IsOfProject, to_plan};
ghost use Rattle.vk_app.specs.Ends.{EndsAs, EndsFor, EndsOverLoad, EndsWith, end_view};
ghost use Rattle.vk_app.specs.Once.{ReadsFor, ReadsOnce};
ghost use Rattle.vk_app.specs.Shown.{shown_for};
ghost use Rattle.vk_model.specs.FaultViews.{outcome_view};
ghost use Rattle.vk_app.specs.Requests.{HasSize, project_of};
ghost use Rattle.vk_app.specs.Resolutions.{Settles};
ghost use Rattle.vk_app.specs.Resolved.{IsOpenedFor, IsReady, OpenedMayAsk, OpenedShows};
ghost use Rattle.vk_app.specs.Resolved.{Resolves, resolution_of};

use crate::abi_texts::{Wanted, end_of_found, find_spot};
use crate::checks::{Checked, check_on, check_refused};
use crate::endings::{end_of_outage, end_of_outcome, end_of_resolved};
use crate::ends::{End, Ended};
use crate::loads::end_of_load;
use crate::requests::Task;
use std::alloc::Global;
use std::marker::Brand;
use std::sync::ledger::{Blank, Ledger};
use vk_base::{Memory, Steps, Stop};
use vk_files::Archive;
use vk_gen::generate;
use vk_model::{Early, Outcome, Project, Setting};
use vk_opening::{Layout, Opened};
use vk_resolve::resolve;
use vk_tree::{MemTree, Tree};
use vk_worklist::CloseFault;
use vk_world::{Parts, Readings, World};

// What a setting and the pages of a world come to, with a count of steps.
fn resolved_by<T: Tree, L: Ledger>(
    alloc: Global,
    setting: &Setting,
    world: &mut World<T>,
    blank: Blank,
) -> Result<Outcome, Stop<CloseFault>>
    requires name { blank.name ≡ L.name }
    requires parts { blank.parts ≡ L.parts }
    requires some { 0 < blank.parts }
    ensures content { OnPages (λ pages. Resolves (Settles (setting_view setting.now) pages) result)
        (state_of T.state world.old) }
    ensures asked { OnlyAsked (has_failed result) (state_of T.state world.old)
        (state_of T.state world.new) }
{
    let mut steps = Steps::<L>::new(blank);
    resolve(alloc, world, setting, &mut steps)
}

// What a project comes to, the tree as it stands, and what was read of it.
#[derive(Drop)]
struct Resolved<T> {
    outcome: Result<Outcome, Stop<CloseFault>>,
    tree: T,
    read: Readings,
}

// What a setting comes to, over the archive on which it was opened.
fn resolved_on<T: Tree>(
    alloc: Global,
    setting: &Setting,
    layout: Layout,
    archive: Archive<T>,
) -> Resolved<T>
    ensures content { IfSome (T.state archive.tree).told (λ t. Resolves
        (Settles (setting_view setting.now) (page_of (layout_view layout) t.files))
        result.outcome) }
    ensures reads { ReadsOnce (IsOfPorts (layout_view layout) to_plan)
        (paths_of archive.kept) (has_failed result.outcome) (T.state archive.tree)
        (T.state result.tree) }
{
    let mut world = World::on(archive, layout);
    let outcome = resolved_by::<T, Brand>(alloc, setting, &mut world, Blank::new(1));
    let Parts { tree, read } = world.into_parts();
    Resolved {
        outcome,
        tree,
        read,
    }
}

// Plans under a setting, over the archive on which it was opened.
fn plan_on<T: Tree>(
    alloc: Global,
    project: &Project,
    setting: &Setting,
    layout: Layout,
    archive: Archive<T>,
) -> Ended<T>
    requires { IfSome (T.state archive.tree).told
        (λ t. IsReady project.now setting.now) }
    ensures { EndsFor (Ok (task.Plan project.now))
        (ShowsSettled (task.Plan project.now) (setting_view setting.now) (layout_view layout))
        (ReadsFor (Ok (task.Plan project.now))
        (IsOfPorts (layout_view layout)) (paths_of archive.kept))
        (end_view result.end) (T.state archive.tree) (T.state result.tree) }
{
    let found = resolved_on(alloc, setting, layout, archive);
    Ended {
        end: end_of_resolved(alloc, project, &found.outcome),
        tree: found.tree,
        read: Some(found.read),
        outcome: Some(found.outcome),
    }
}

// Plans a load of a size under its setting, over the archive on which that was opened.
fn load_on<T: Tree>(
    alloc: Global,
    size: u32,
    project: &Project,
    setting: &Setting,
    layout: Layout,
    archive: Archive<T>,
) -> Ended<T>
    requires { IfSome (T.state archive.tree).told
        (λ t. IsReady project.now setting.now) }
    ensures { EndsFor (Ok (task.SelfLoad size project.now))
        (ShowsSettled (task.SelfLoad size project.now) (setting_view setting.now)
        (layout_view layout))
        (ReadsFor (Ok (task.SelfLoad size project.now))
        (IsOfPorts (layout_view layout)) (paths_of archive.kept))
        (end_view result.end) (T.state archive.tree) (T.state result.tree) }
{
    let found = resolved_on(alloc, setting, layout, archive);
    Ended {
        end: end_of_load(alloc, size, project, &found.outcome),
        tree: found.tree,
        read: Some(found.read),
        outcome: Some(found.outcome),
    }
}

// Writes the ABI text that is wanted, over the archive on which its setting was opened.
fn text_on<T: Tree>(
    alloc: Global,
    wanted: Wanted<'_>,
    layout: Layout,
    archive: Archive<T>,
) -> Ended<T>
    requires { IfSome (T.state archive.tree).told
        (λ t. IsReady wanted.project.now wanted.setting.now) }
    ensures { EndsFor (Ok (task.Abi wanted.entry.project.now wanted.entry.instance.now))
        (ShowsSettled (task.Abi wanted.entry.project.now wanted.entry.instance.now)
        (setting_view wanted.entry.setting.now) (layout_view layout))
        (ReadsFor (Ok (task.Abi wanted.entry.project.now wanted.entry.instance.now))
        (IsOfPorts (layout_view layout)) (paths_of archive.kept))
        (end_view result.end) (T.state archive.tree) (T.state result.tree) }
{
    let mut world = World::on(archive, layout);
    let outcome = resolved_by::<T, Brand>(alloc, wanted.setting, &mut world, Blank::new(1));
    let found = find_spot(alloc, &mut world, wanted, &outcome);
    let Parts { mut tree, read } = world.into_parts();
    Ended {
        end: end_of_found(alloc, &mut tree, wanted, &outcome, &found),
        tree,
        read: Some(read),
        outcome: Some(outcome),
    }
}

// Does a task under a setting, over the archive on which that was opened.
fn done_on<T: Tree>(
    alloc: Global,
    task: &Task,
    setting: &Setting,
    layout: Layout,
    archive: Archive<T>,
) -> Ended<T>
    requires { IfSome (T.state archive.tree).told
        (λ t. IsReady (project_of task.now) setting.now) }
    ensures { NoRepeats (paths_of archive.kept) → EndsFor (Ok task.now)
        (ShowsSettled task.now (setting_view setting.now) (layout_view layout))
        (ReadsFor (Ok task.now) (IsOfPorts (layout_view layout))
        (paths_of archive.kept))
        (end_view result.end) (T.state archive.tree) (T.state result.tree) }
{
    match task {
        Task::Plan(project) => plan_on(alloc, project, setting, layout, archive),
        Task::Abi(project, instance) => {
            let wanted = Wanted {
                project,
                instance,
                setting,
            };
            text_on(alloc, wanted, layout, archive)
        }
        Task::Check(project, report) => {
            let checked = Checked { project, report };
            check_on(alloc, checked, setting, layout, archive)
        }
        Task::SelfLoad(size, project) => load_on(alloc, *size, project, setting, layout, archive),
    }
}

// Tells a project that didn't open, over a tree of which nothing more is read.
fn refused<T>(alloc: Global, outcome: Outcome, tree: T) -> Ended<T>
    ensures end { EndsWith (shown_for (resolution_of (outcome_view outcome)))
        (end_view result.end) }
    ensures tree { result.tree ≡ tree }
{
    Ended {
        end: end_of_outcome(alloc, &outcome),
        tree,
        read: None,
        outcome: Some(Ok(outcome)),
    }
}

// Does a task for a project that didn't open, by its early line.
fn done_refused<T: Tree>(alloc: Global, task: &Task, early: Early, archive: Archive<T>) -> Ended<T>
    ensures { (earlier : List Path) → NoRepeats earlier →
        EndsFor (Ok task.now) (ShowsEarly task.now (early_view early))
        (ReadsFor (Ok task.now) AsksNothing earlier) (end_view result.end)
        (T.state archive.tree) (T.state result.tree) }
{
    match task {
        Task::Plan(_) => refused(alloc, Outcome::Early(early), archive.into_tree()),
        Task::Abi(_, _) => refused(alloc, Outcome::Early(early), archive.into_tree()),
        Task::Check(_, report) => check_refused(alloc, report, early, archive),
        Task::SelfLoad(_, _) => refused(alloc, Outcome::Early(early), archive.into_tree()),
    }
}

// Does a task for a project that was opened, or tells the early line.
fn done_opened<T: Tree>(alloc: Global, task: &Task, opened: Opened, archive: Archive<T>) -> Ended<T>
    requires { IfSome (T.state archive.tree).told (λ t. IsOpenedFor (project_of task.now) opened) }
    ensures { NoRepeats (paths_of archive.kept) →
        EndsFor (Ok task.now) (OpenedShows task.now opened)
        (ReadsFor (Ok task.now) (OpenedMayAsk opened) (paths_of archive.kept))
        (end_view result.end) (T.state archive.tree) (T.state result.tree) }
{
    match opened {
        Opened::Ready { setting, layout } => {
            let ended = done_on(alloc, task, &setting, layout, archive);
            drop(setting);
            ended
        }
        Opened::Refused(early) => done_refused(alloc, task, early, archive),
    }
}

// Does a task over the files of a tree: opens its project and shows what it comes to.
fn done_over<T: Tree>(alloc: Global, task: &Task, tree: T) -> Ended<T>
    ensures { EndsFor (Ok task.now) (ShowsProject task.now)
        (ReadsFor (Ok task.now) (IsOfProject (project_of task.now)) []) (end_view result.end)
        (T.state tree) (T.state result.tree) }
{
    let mut archive = Archive::new(alloc, tree);
    let opened = World::open(&mut archive, task.project(), None);
    archive.known();
    match opened {
        Ok(opened) => done_opened(alloc, task, opened, archive),
        Err(outage) => Ended {
            end: end_of_outage(&outage),
            tree: archive.into_tree(),
            read: None,
            outcome: None,
        },
    }
}

// Does a task over the files of a load, as a tree in memory.
fn done_over_load(alloc: Global, task: &Task, size: u32) -> Result<Ended<MemTree>, Memory>
    requires some { 1 ≤ size }
    requires most { size ≤ 2000 }
    ensures { IfOk result (λ ended. EndsOverLoad task.now size (end_view ended.end)) }
{
    let load = generate(alloc, size)?;
    Ok(done_over(alloc, task, load))
}

// Does a task over the files of a load; the tree stays as it is.
fn done_load<T>(alloc: Global, task: &Task, size: u32, tree: T) -> Ended<T>
    requires some { 1 ≤ size }
    requires most { size ≤ 2000 }
    ensures end { EndsOverLoad task.now size (end_view result.end) }
    ensures tree { result.tree ≡ tree }
{
    match done_over_load(alloc, task, size) {
        Ok(ended) => Ended {
            end: ended.end,
            tree,
            read: ended.read,
            outcome: ended.outcome,
        },
        Err(_) => Ended {
            end: End::Memory,
            tree,
            read: None,
            outcome: None,
        },
    }
}

/// Does a task: over the files of a tree, or over those of a load, which leaves the tree as it is.
pub fn done<T: Tree>(alloc: Global, task: &Task, tree: T) -> Ended<T>
    requires { HasSize task.now }
    ensures { EndsAs (Ok task.now) (end_view result.end) (T.state tree) (T.state result.tree) }
{
    match task {
        Task::Plan(_) => done_over(alloc, task, tree),
        Task::Abi(_, _) => done_over(alloc, task, tree),
        Task::Check(_, _) => done_over(alloc, task, tree),
        Task::SelfLoad(size, _) => done_load(alloc, task, *size, tree),
    }
}
