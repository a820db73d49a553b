//! The walk of a folder, and the files that were found there.
ghost use Rattle.std.specs.Prelude.{◌≡◌, ℕ, IfOk, Ok};
ghost use Rattle.vk_spec.specs.Paths.{Path};
ghost use Rattle.vk_protocol.specs.Protocols.{ends};
ghost use Rattle.vk_protocol.specs.Runs.{IsAtEnd, NextIs};
ghost use Rattle.vk_walk.specs.WalkMachine.{found_view, limit_view, walk_means};
ghost use Rattle.vk_gather.specs.Gathers.{gather_of, limit_of, read_found};
ghost use Rattle.vk_gather.specs.GatherMachine.{now_means, walk_left};

use crate::gathering::GatherNow;
use crate::left::all_left;
use crate::seen::seen_in;
use std::alloc::Global;
use vk_base::{Limit, List, Memory, Outage, TreePath};
use vk_entry::Package;
use vk_protocol::Machine;
use vk_tree::Tree;
use vk_walk::{Walk, WalkLimit, found_by};

fn limit_of(limit: WalkLimit) -> Limit
    ensures { result ≡ limit_of (limit_view limit) }
{
    match limit {
        WalkLimit::Deep => Limit::Depth,
        WalkLimit::Entries => Limit::Entries,
        WalkLimit::Files => Limit::Files,
    }
}

// What follows files that were found.
fn files_next(
    alloc: Global,
    folder: &TreePath,
    most: u64,
    found: &[TreePath],
) -> Result<GatherNow, Memory>
    ensures { IfOk result (λ now. now_means most folder.now now
        ≡ read_found most folder.now (Ok found.now)) }
{
    let todo = seen_in(alloc, folder, found)?;
    Ok(all_left(alloc, todo, most))
}

// What follows the walk.
fn found_next(
    alloc: Global,
    folder: &TreePath,
    most: u64,
    walked: Result<List<TreePath>, WalkLimit>,
) -> Result<GatherNow, Memory>
    ensures { IfOk result (λ now. now_means most folder.now now
        ≡ read_found most folder.now (found_view walked)) }
{
    match walked {
        Ok(found) => files_next(alloc, folder, most, found.as_slice()),
        Err(limit) => Ok(GatherNow::Ended(Err(limit_of(limit)))),
    }
}

// What follows a step of the walk.
fn walk_next(alloc: Global, folder: &TreePath, most: u64, walk: Walk) -> Result<GatherNow, Memory>
    ensures { IfOk result (λ now. now_means most folder.now now
        ≡ walk_left most folder.now walk) }
{
    if walk.asks() {
        return Ok(GatherNow::Walks(walk));
    }
    found_next(alloc, folder, most, found_by(walk))
}

/// One step of the walk, and what follows it.
pub(crate) fn walk_on<T: Tree>(
    alloc: Global,
    folder: &TreePath,
    most: u64,
    walk: Walk,
    tree: &mut T,
) -> Result<GatherNow, Outage>
    ensures { NextIs (walk_left most folder.now walk) (now_means most folder.now) result
        (T.state tree.old) (T.state tree.new) }
{
    let mut walk = walk;
    match walk.step(tree) {
        Ok(()) => Ok(walk_next(alloc, folder, most, walk)?),
        Err(outage) => {
            drop(walk);
            Err(outage)
        }
    }
}

/// The first step of the walk, and what follows it.
pub(crate) fn walk_first<T: Tree>(
    alloc: Global,
    folder: &TreePath,
    most: u64,
    tree: &mut T,
) -> Result<GatherNow, Outage>
    ensures { NextIs (gather_of most folder.now) (now_means most folder.now) result
        (T.state tree.old) (T.state tree.new) }
{
    let walked = folder.clone()?;
    walk_on(alloc, folder, most, Walk::new(alloc, walked), tree)
}

/// What a gathering came to that ended with its walk.
pub(crate) fn end_of(alloc: Global, walk: Walk) -> Result<Package, Limit>
    requires { IsAtEnd (walk_means walk) }
    ensures { (most : ℕ) (folder : Path) → IsAtEnd (walk_left most folder walk)
        → walk_left most folder walk ≡ ends result }
{
    match found_by(walk) {
        Ok(found) => {
            drop(found);
            Ok(Package::new(alloc))
        }
        Err(limit) => Err(limit_of(limit)),
    }
}
