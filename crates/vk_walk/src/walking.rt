//! The files below a folder, in the order of their texts.
ghost use Rattle.std.specs.Prelude.{◌≡◌, IfOk, Ok};
ghost use Rattle.std.specs.List.Sorted.{IsPermutation, IsSorted};
ghost use Rattle.vk_spec.specs.States.{OnlyListed};
ghost use Rattle.vk_spec.specs.Standing.{OnFiles};
ghost use Rattle.vk_tree.specs.Trees.{IsTreeDisk};
ghost use Rattle.vk_protocol.specs.Runs.{Ran};
ghost use Rattle.vk_walk.specs.Walks.{AreSeen, text_order};
ghost use Rattle.vk_walk.specs.Walked.{IsInOrder, WalkIs, answered, fault_of, walk_failed};
ghost use Rattle.vk_walk.specs.Walked.{walk_limits};
ghost use Rattle.vk_walk.specs.WalkProtocol.{walk_of};
ghost use Rattle.vk_walk.specs.WalkMachine.{ended_view, found_view, limit_view};

use crate::walks::{Walk, WalkLimit, found_by};
use std::alloc::{AllocError, AllocFailed, Global};
use std::cmp::Ordering;
use vk_base::{List, Memory, Outage, Stop, TreePath};
use vk_protocol::run;
use vk_tree::Tree;

/// Why a folder wasn't walked: it isn't there, or the first limit that is passed in the order of
/// paths.
#[derive(Clone, Copy, Debug, PartialEq, Eq)]
pub enum WalkFault {
    /// No file lies below it.
    Missing,
    /// A folder lies more than 64 levels below it.
    Deep,
    /// A folder has more than 100,000 entries.
    Entries,
    /// More than 1,000,000 files lie below it.
    Files,
}

/// The files below a folder as they are seen from it, each once and in the order of their texts.
/// `Missing` exactly where no file lies below the folder; one of the other three exactly where its
/// limit is the first that is passed, in the order of paths. A link that the tree doesn't follow
/// isn't followed here. Nothing but listing is done, and each folder is listed once.
pub fn walk<T: Tree>(
    alloc: Global,
    tree: &mut T,
    dir: &TreePath,
) -> Result<List<TreePath>, Stop<WalkFault>>
    ensures is { OnFiles (WalkIs walk_limits dir.now result) (T.state tree.old) }
    ensures reads { OnlyListed (walk_failed result) (T.state tree.old) (T.state tree.new) }
    ensures tree { OnFiles IsTreeDisk (T.state tree.old) }
{
    let found = walk_in_order(alloc, tree, dir)?;
    let seen = seen_from(alloc, dir, found.as_slice())?;
    Ok(in_order_of_texts(seen))
}

/// Paths as they are seen from a folder, for those that it begins.
pub fn seen_from(
    alloc: Global,
    folder: &TreePath,
    paths: &[TreePath],
) -> Result<List<TreePath>, Memory>
    ensures { IfOk result (AreSeen folder.now paths.now) }
{
    let mut seen = List::new(alloc);
    for path in paths {
        if let Some(path) = path.relative_to(alloc, folder)? {
            seen.push(path)?;
        }
    }
    Ok(seen)
}

/// Paths in the order of their texts. Takes no memory.
pub fn in_order_of_texts(paths: List<TreePath>) -> List<TreePath>
    ensures moved { IsPermutation paths result }
    ensures order { IsSorted text_order result }
{
    let mut paths = paths.into_vec();
    paths.sort_unstable_by(
        |one: &TreePath, other: &TreePath| -> Ordering
            ensures { result ≡ text_order one.now other.now }
        { one.cmp_text(other) },
    );
    List::from_vec(paths)
}

// The files below a folder, in the order of their paths.
fn walk_in_order<T: Tree>(
    alloc: Global,
    tree: &mut T,
    folder: &TreePath,
) -> Result<List<TreePath>, Stop<WalkFault>>
    ensures is { OnFiles (IsInOrder walk_limits folder.now result) (T.state tree.old) }
    ensures reads { OnlyListed (walk_failed result) (T.state tree.old) (T.state tree.new) }
    ensures tree { OnFiles IsTreeDisk (T.state tree.old) }
{
    let found = files_below(alloc, tree, folder)?;
    answered(found)
}

// The files below a folder, or the limit that is passed. The folder is listed before memory is
// asked for.
fn files_below<T: Tree>(
    alloc: Global,
    tree: &mut T,
    folder: &TreePath,
) -> Result<Result<List<TreePath>, WalkLimit>, Outage>
    ensures ran { Ran (walk_of walk_limits folder.now) (ended_view result) (T.state tree.old)
        (T.state tree.new) }
    ensures tree { OnFiles IsTreeDisk (T.state tree.old) }
{
    let mut walk = Walk::begin(alloc, tree, folder)?;
    run(&mut walk, tree)?;
    Ok(found_by(walk))
}

// What is answered of the files that were found; where there are none, there is no folder.
fn answered(found: Result<List<TreePath>, WalkLimit>) -> Result<List<TreePath>, Stop<WalkFault>>
    ensures { result ≡ answered (found_view found) }
{
    match found {
        Ok(found) => some_files(found),
        Err(limit) => Err(Stop::Fault(fault_of(limit))),
    }
}

fn some_files(found: List<TreePath>) -> Result<List<TreePath>, Stop<WalkFault>>
    ensures { result ≡ answered (Ok found) }
{
    if found.is_empty() {
        return Err(Stop::Fault(WalkFault::Missing));
    }
    Ok(found)
}

fn fault_of(limit: WalkLimit) -> WalkFault
    ensures { result ≡ fault_of (limit_view limit) }
{
    match limit {
        WalkLimit::Deep => WalkFault::Deep,
        WalkLimit::Entries => WalkFault::Entries,
        WalkLimit::Files => WalkFault::Files,
    }
}
