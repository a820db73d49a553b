//! The files of a folder, each read once.
ghost use Rattle.std.specs.Prelude.{◌≡◌, ◌≤◌, ◌++◌, IfOk, length};
ghost use Rattle.vk_spec.specs.Calls.{read_of};
ghost use Rattle.vk_spec.specs.Paths.{Path};
ghost use Rattle.vk_base.specs.Paths.{parts_of};
ghost use Rattle.vk_tree.specs.Answers.{read_refusal};
ghost use Rattle.vk_protocol.specs.Asking.{ReadSays, reply_by};
ghost use Rattle.vk_protocol.specs.Runs.{Asked, NextIs};
ghost use Rattle.vk_gather.specs.FilesToGather.{IsSeen};
ghost use Rattle.vk_gather.specs.GatherMachine.{after_file, at_file, now_means};

use crate::gathering::GatherNow;
use crate::left::FilesLeft;
use crate::seen::known;
use std::alloc::Global;
use vk_base::{Limit, List, Memory, Outage, TreePath};
use vk_protocol::ask_read;
use vk_tree::{ReadFault, Tree};

// The path of a file that is seen from a folder.
fn path_of(alloc: Global, folder: &TreePath, seen: &TreePath) -> Result<TreePath, Memory>
    requires { IsSeen seen.now }
    ensures { IfOk result (λ path. path ≡ folder.now ++ parts_of seen.now) }
{
    known(folder);
    folder.join(alloc, seen)
}

// Asks for a file that is seen from a folder.
fn ask_file<T: Tree>(
    alloc: Global,
    folder: &TreePath,
    left: &FilesLeft,
    tree: &mut T,
) -> Result<Result<List<u8>, ReadFault>, Outage>
    ensures asked { Asked (read_of (folder.now ++ parts_of left.now.next) left.now.so_far.room)
        ReadSays result (T.state tree.old) (T.state tree.new) }
    ensures small { IfOk result
        (λ r. IfOk r (λ bytes. length bytes ≤ left.now.so_far.room)) }
{
    let path = path_of(alloc, folder, left.next())?;
    ask_read(tree, &path, left.room())
}

// What follows the reading of a file.
fn file_next(
    most: u64,
    left: FilesLeft,
    reply: Result<List<u8>, ReadFault>,
) -> Result<GatherNow, Memory>
    requires { IfOk reply (λ bytes. length bytes ≤ left.so_far.room) }
    ensures { IfOk result (λ now. (folder : Path) → now_means most folder now
        ≡ after_file most folder left (reply_by (λ b. b) read_refusal reply)) }
{
    match reply {
        Ok(bytes) => left.take(bytes),
        Err(ReadFault::Missing) => Ok(left.skip()),
        Err(ReadFault::TooLarge) => {
            drop(left);
            Ok(GatherNow::Ended(Err(Limit::Bytes(most))))
        }
    }
}

/// Reads the next file.
pub(crate) fn read_file<T: Tree>(
    alloc: Global,
    folder: &TreePath,
    most: u64,
    left: FilesLeft,
    tree: &mut T,
) -> Result<GatherNow, Outage>
    ensures { NextIs (at_file most folder.now left) (now_means most folder.now) result
        (T.state tree.old) (T.state tree.new) }
{
    match ask_file(alloc, folder, &left, tree) {
        Ok(reply) => Ok(file_next(most, left, reply)?),
        Err(outage) => {
            drop(left);
            Err(outage)
        }
    }
}
