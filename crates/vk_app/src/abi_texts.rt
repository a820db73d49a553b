//! The ABI text of an instance in the plan of a project.
ghost use Rattle.std.specs.Prelude.{◌≡◌, ◌∷◌, [], Some, Ok, IfNone, IfOk, IfSome, OnOk};
ghost use Rattle.std.specs.Prelude.{length, map};
ghost use Rattle.std.specs.List.{Contains, position};
ghost use Rattle.vk_spec.specs.Catalogues.{OnlyAsked, OnPages};
ghost use Rattle.vk_base.specs.Stops.{was_out};
ghost use Rattle.vk_resolution.specs.Settings.{same_instance};
ghost use Rattle.vk_model.specs.FaultViews.{item_view};
ghost use Rattle.vk_model.specs.SettingViews.{instance_view, setting_view};
ghost use Rattle.vk_world.specs.Worlds.{state_of};
ghost use Rattle.vk_abi.specs.Plans.{pair_view};
ghost use Rattle.vk_app.specs.Texts.{place_of, text_at};
ghost use Rattle.vk_app.specs.Ends.{EndsWith, end_view};
ghost use Rattle.vk_app.specs.Folders.{AreItemFolders, EndsFound, EndsInPlan, EndsPlaced, Finds};
ghost use Rattle.vk_app.specs.Folders.{FindsIn, FitsOutcome, HasFolders, HasItem, HaveItems};
ghost use Rattle.vk_app.specs.Folders.{HasNoPlan, HaveOutcome, IsPlanOf, shown_limit};

use crate::endings::{end_of_limit, end_of_outage, end_of_resolved, end_of_unplanned};
use crate::ends::End;
use std::alloc::Global;
use vk_abi::{AbiPair, texts};
use vk_base::{Instance, Limit, List, Memory, Outage, Stop, TreePath};
use vk_catalogue::Catalogue;
use vk_model::{Item, Outcome, Plan, Project, Setting};
use vk_tree::Tree;
use vk_worklist::CloseFault;
use vk_world::World;

/// Whose ABI text is wanted, in the plan of which project, and what that is planned under.
#[derive(Clone, Copy)]
pub struct Wanted<'a> {
    pub project: &'a Project,
    pub instance: &'a Instance,
    pub setting: &'a Setting,
}

/// Where an instance stands in a plan, and the folders of all items.
#[derive(Drop)]
pub struct Spot {
    pub place: usize,
    pub folders: List<TreePath>,
}

// The folder where the version of an item stands: where files are told, the world has it.
fn folder_of<T: Tree>(
    alloc: Global,
    world: &mut World<T>,
    project: &Project,
    item: &Item,
) -> Result<TreePath, Outage>
    requires { OnPages (λ pages. HasItem pages (item_view item.now))
        (state_of T.state world.old) }
    ensures stands { IfOk result (λ folder. AreItemFolders (item_view item.now ∷ [])
        (folder ∷ []) (state_of T.state world.old)) }
    ensures asked { OnlyAsked (was_out result) (state_of T.state world.old)
        (state_of T.state world.new) }
{
    match world.folder(&item.inst.port, &item.version)? {
        Some(folder) => Ok(folder),
        None => Ok(project.folder.child(alloc, item.inst.port.as_str())?),
    }
}

// The folders where the versions of items stand.
fn folders_of<T: Tree>(
    alloc: Global,
    world: &mut World<T>,
    project: &Project,
    items: &[Item],
) -> Result<List<TreePath>, Outage>
    requires { OnPages (λ pages. HaveItems pages (map item_view items.now))
        (state_of T.state world.old) }
    ensures stand { IfOk result (λ folders. AreItemFolders (map item_view items.now) folders
        (state_of T.state world.old)) }
    ensures count { IfOk result (λ folders. length folders ≡ length items.now) }
    ensures asked { OnlyAsked (was_out result) (state_of T.state world.old)
        (state_of T.state world.new) }
{
    let mut folders = List::new(alloc);
    for item in items {
        let folder = folder_of(alloc, world, project, item)?;
        folders.push(folder)?;
    }
    Ok(folders)
}

// Whether an item is of an instance.
fn is_of(item: &Item, instance: &Instance) -> bool
    ensures { result ≡ same_instance (instance_view item.now.inst) (instance_view instance.now) }
{
    item.inst.port == instance.port && item.inst.triplet == instance.triplet
}

// The first item of an instance.
fn first_of(items: &[Item], instance: &Instance) -> Option<usize>
    ensures { result ≡ position (λ item. same_instance (instance_view item.inst)
        (instance_view instance.now)) items.now }
{
    items.iter().position(|item| is_of(item, instance))
}

// The place of an instance in a plan.
fn place_in(plan: &Plan, instance: &Instance) -> Option<usize>
    ensures { result ≡ place_of (instance_view instance.now) (map item_view plan.now.items) }
{
    first_of(plan.items.as_slice(), instance)
}

// The plan that a project comes to.
fn plan_in(outcome: &Result<Outcome, Stop<CloseFault>>) -> Option<&Plan>
    ensures some { IfSome result (λ plan. IsPlanOf plan.now outcome.now) }
    ensures none { IfNone result (HasNoPlan outcome.now) }
{
    match outcome {
        Ok(outcome) => planned(outcome),
        Err(_) => None,
    }
}

// The plan of an outcome.
fn planned(outcome: &Outcome) -> Option<&Plan>
    ensures some { IfSome result (λ plan. IsPlanOf plan.now (Ok outcome.now)) }
    ensures none { IfNone result (HasNoPlan (Ok outcome.now)) }
{
    match outcome {
        Outcome::Planned(plan, _) => Some(plan),
        Outcome::Refused(_, _) => None,
        Outcome::Early(_) => None,
    }
}

// Where the wanted instance stands in a plan, with the folders of all items.
fn spot_in<T: Tree>(
    alloc: Global,
    world: &mut World<T>,
    wanted: Wanted<'_>,
    plan: &Plan,
) -> Result<Option<Spot>, Outage>
    requires { OnPages (λ pages. HaveItems pages (map item_view plan.now.items))
        (state_of T.state world.old) }
    ensures finds { FindsIn (instance_view wanted.entry.instance.now) (map item_view plan.now.items)
        result (state_of T.state world.old) }
    ensures asked { OnlyAsked (was_out result) (state_of T.state world.old)
        (state_of T.state world.new) }
{
    let Some(place) = place_in(plan, wanted.instance) else {
        return Ok(None);
    };
    let folders = folders_of(alloc, world, wanted.project, plan.items.as_slice())?;
    Ok(Some(Spot { place, folders }))
}

/// Where the wanted instance stands in what a project comes to, if it is planned there.
pub fn find_spot<T: Tree>(
    alloc: Global,
    world: &mut World<T>,
    wanted: Wanted<'_>,
    outcome: &Result<Outcome, Stop<CloseFault>>,
) -> Result<Option<Spot>, Outage>
    requires { HaveOutcome outcome.now (state_of T.state world.old) }
    ensures finds { Finds (instance_view wanted.entry.instance.now) outcome.now result
        (state_of T.state world.old) }
    ensures asked { OnlyAsked (was_out result) (state_of T.state world.old)
        (state_of T.state world.new) }
{
    match plan_in(outcome) {
        Some(plan) => spot_in(alloc, world, wanted, plan),
        None => Ok(None),
    }
}

// The text at a place.
fn text_of(alloc: Global, pairs: List<AbiPair>, place: usize) -> List<u8>
    ensures { result ≡ text_at (map pair_view pairs) place }
{
    let mut pairs = pairs.into_vec();
    if place < pairs.len() {
        pairs.swap_remove(place).text
    } else {
        List::new(alloc)
    }
}

// How it is told that there are no texts.
fn end_of_texts(alloc: Global, stop: &Stop<Limit>) -> End
    ensures { EndsWith (shown_limit stop.now) (end_view result) }
{
    match stop {
        Stop::Fault(limit) => end_of_limit(alloc, *limit),
        Stop::Failed => End::TreeFailed,
        Stop::Memory(_) => End::Memory,
    }
}

// The text at a spot, or the limit that a folder passes.
fn end_at<T: Tree>(alloc: Global, tree: &mut T, wanted: Wanted<'_>, plan: &Plan, spot: &Spot) -> End
    requires { length spot.now.folders ≡ length plan.now.items }
    ensures { EndsPlaced wanted.entry (map item_view plan.now.items) spot.now (end_view result)
        (T.state tree.old) (T.state tree.new) }
{
    let Wanted {
        project,
        setting,
        ..
    } = wanted;
    match texts(
        alloc,
        tree,
        plan,
        &spot.folders,
        setting,
        &project.builder,
        project.max_bytes,
    ) {
        Ok(pairs) => End::Written(0, text_of(alloc, pairs, spot.place)),
        Err(stop) => end_of_texts(alloc, &stop),
    }
}

// What is told of a plan.
fn end_in_plan<T: Tree>(
    alloc: Global,
    tree: &mut T,
    wanted: Wanted<'_>,
    plan: &Plan,
    found: &Result<Option<Spot>, Outage>,
) -> End
    requires { HasFolders (map item_view plan.now.items) found.now }
    ensures { EndsInPlan wanted.entry (map item_view plan.now.items) found.now (end_view result)
        (T.state tree.old) (T.state tree.new) }
{
    match found {
        Ok(Some(spot)) => end_at(alloc, tree, wanted, plan, spot),
        Ok(None) => end_of_unplanned(alloc, wanted.instance),
        Err(outage) => end_of_outage(outage),
    }
}

/// How it is told what was found of an instance: its ABI text, that it isn't planned, or why there
/// is no plan or no text.
pub fn end_of_found<T: Tree>(
    alloc: Global,
    tree: &mut T,
    wanted: Wanted<'_>,
    outcome: &Result<Outcome, Stop<CloseFault>>,
    found: &Result<Option<Spot>, Outage>,
) -> End
    requires { FitsOutcome outcome.now found.now }
    ensures { EndsFound wanted.entry outcome.now found.now (end_view result)
        (T.state tree.old) (T.state tree.new) }
{
    match plan_in(outcome) {
        Some(plan) => end_in_plan(alloc, tree, wanted, plan, found),
        None => end_of_resolved(alloc, wanted.project, outcome),
    }
}
