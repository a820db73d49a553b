//! The walk of an entry, and what was found there.
ghost use Rattle.std.specs.Prelude.{◌≡◌, Ok, Some, IfOk};
ghost use Rattle.vk_protocol.specs.Runs.{NextIs};
ghost use Rattle.vk_walk.specs.WalkMachine.{found_view};
ghost use Rattle.vk_look.specs.Looks.{harm_by, look_compared, look_found, look_listed};
ghost use Rattle.vk_looking.specs.LookMachine.{now_means, walk_left, wanted_view};

use crate::compared::compare;
use crate::files::begin_files;
use crate::left::Lines;
use crate::looking::{LookFor, LookNow, damaged};
use std::alloc::Global;
use vk_base::{List, Memory, Outage, TreePath};
use vk_entry::Difference;
use vk_look::Harm;
use vk_protocol::Machine;
use vk_tree::Tree;
use vk_walk::{Walk, WalkLimit, found_by};

/// The walk of an entry whose list was read.
pub(crate) fn begin_walk(
    alloc: Global,
    wanted: &LookFor<'_>,
    kept: List<u8>,
    lines: Lines,
) -> Result<LookNow, Memory>
    ensures { IfOk result (λ at. now_means (wanted_view wanted.now) at
        ≡ look_listed (wanted_view wanted.now) kept (Some lines)) }
{
    let folder = wanted.folder.clone()?;
    let walk = Walk::new(alloc, folder);
    Ok(LookNow::Walks { kept, lines, walk })
}

// The harm of files that aren't those that are to be there.
fn harm_by(how: Difference) -> Harm
    ensures { result ≡ harm_by how }
{
    match how {
        Difference::Extra => Harm::Extra,
        Difference::Missing => Harm::Missing,
    }
}

// What follows the comparison of the files that were found with those that are listed.
fn compared_next(
    alloc: Global,
    wanted: &LookFor<'_>,
    kept: List<u8>,
    lines: Lines,
    how: Option<Difference>,
) -> LookNow
    ensures { now_means (wanted_view wanted.now) result
        ≡ look_compared (wanted_view wanted.now) kept lines how }
{
    match how {
        Some(how) => damaged(harm_by(how)),
        None => begin_files(alloc, wanted, kept, lines),
    }
}

// Compares the files that were found with those that are listed.
fn compare_next(
    alloc: Global,
    wanted: &LookFor<'_>,
    kept: List<u8>,
    lines: Lines,
    found: List<TreePath>,
) -> Result<LookNow, Memory>
    ensures { IfOk result (λ at. now_means (wanted_view wanted.now) at
        ≡ look_found (wanted_view wanted.now) kept lines (Ok found)) }
{
    match compare(alloc, wanted.folder, lines.as_slice(), found.as_slice()) {
        Ok(how) => Ok(compared_next(alloc, wanted, kept, lines, how)),
        Err(memory) => {
            drop(kept);
            drop(lines);
            Err(memory)
        }
    }
}

// What follows the walk.
fn found_next(
    alloc: Global,
    wanted: &LookFor<'_>,
    kept: List<u8>,
    lines: Lines,
    walked: Result<List<TreePath>, WalkLimit>,
) -> Result<LookNow, Memory>
    ensures { IfOk result (λ at. now_means (wanted_view wanted.now) at
        ≡ look_found (wanted_view wanted.now) kept lines (found_view walked)) }
{
    match walked {
        Ok(found) => compare_next(alloc, wanted, kept, lines, found),
        Err(_) => {
            drop(kept);
            drop(lines);
            Ok(damaged(Harm::Extra))
        }
    }
}

// What follows a step of the walk.
fn walk_next(
    alloc: Global,
    wanted: &LookFor<'_>,
    kept: List<u8>,
    lines: Lines,
    walk: Walk,
) -> Result<LookNow, Memory>
    ensures { IfOk result (λ at. now_means (wanted_view wanted.now) at
        ≡ walk_left (wanted_view wanted.now) kept lines walk) }
{
    if walk.asks() {
        return Ok(LookNow::Walks { kept, lines, walk });
    }
    found_next(alloc, wanted, kept, lines, found_by(walk))
}

/// One step of the walk, and what follows it.
pub(crate) fn walk_on<T: Tree>(
    alloc: Global,
    wanted: &LookFor<'_>,
    kept: List<u8>,
    lines: Lines,
    walk: Walk,
    tree: &mut T,
) -> Result<LookNow, Outage>
    ensures { NextIs (walk_left (wanted_view wanted.now) kept lines walk)
        (now_means (wanted_view wanted.now)) result (T.state tree.old) (T.state tree.new) }
{
    let mut walk = walk;
    match walk.step(tree) {
        Ok(()) => Ok(walk_next(alloc, wanted, kept, lines, walk)?),
        Err(outage) => {
            drop(kept);
            drop(lines);
            drop(walk);
            Err(outage)
        }
    }
}
