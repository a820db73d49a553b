//! The contents list of an entry.
ghost use Rattle.std.specs.Prelude.{◌≡◌, ◌≤◌, ◌<◌, ◌^◌, IfOk, length};
ghost use Rattle.vk_spec.specs.Calls.{read_of};
ghost use Rattle.vk_tree.specs.Answers.{read_refusal};
ghost use Rattle.vk_protocol.specs.Asking.{ReadSays, reply_by};
ghost use Rattle.vk_protocol.specs.Runs.{Asked, NextIs};
ghost use Rattle.vk_places.specs.Places.{contents_at};
ghost use Rattle.vk_entry.specs.ContentsIn.{contents_in};
ghost use Rattle.vk_look.specs.LookIs.{most_list};
ghost use Rattle.vk_look.specs.Looks.{list_told, look_contents, look_listed};
ghost use Rattle.vk_looking.specs.LookMachine.{now_means, wanted_view};

use crate::left::Lines;
use crate::looking::{LookFor, LookNow, damaged};
use crate::texts::MOST_LIST;
use crate::walks::begin_walk;
use std::alloc::Global;
use vk_base::{List, Memory, Outage, TreePath, Unread};
use vk_entry::read_contents;
use vk_look::Harm;
use vk_places::contents_in;
use vk_protocol::ask_read;
use vk_tree::{ReadFault, Tree};

fn list_next(
    alloc: Global,
    wanted: &LookFor<'_>,
    kept: List<u8>,
    bytes: &[u8],
) -> Result<LookNow, Memory>
    requires { length bytes.now < 2 ^ 32 }
    ensures { IfOk result (λ at. now_means (wanted_view wanted.now) at
        ≡ look_listed (wanted_view wanted.now) kept (contents_in bytes.now)) }
{
    match read_contents(alloc, bytes) {
        Ok(lines) => begin_walk(alloc, wanted, kept, Lines::of(lines)),
        Err(Unread::Fault(_)) => Ok(damaged(Harm::Contents)),
        Err(Unread::Memory(memory)) => Err(memory),
    }
}

fn contents_next(
    alloc: Global,
    wanted: &LookFor<'_>,
    kept: List<u8>,
    reply: Result<List<u8>, ReadFault>,
) -> Result<LookNow, Memory>
    requires { IfOk reply (λ bytes. length bytes ≤ 67108864) }
    ensures { IfOk result (λ at. now_means (wanted_view wanted.now) at
        ≡ look_listed (wanted_view wanted.now) kept
        (list_told (reply_by (λ b. b) read_refusal reply))) }
{
    match reply {
        Ok(bytes) => list_next(alloc, wanted, kept, bytes.as_slice()),
        Err(ReadFault::Missing) => Ok(damaged(Harm::Contents)),
        Err(ReadFault::TooLarge) => Ok(damaged(Harm::Contents)),
    }
}

// Asks for the contents list.
fn ask_list<T: Tree>(
    alloc: Global,
    folder: &TreePath,
    tree: &mut T,
) -> Result<Result<List<u8>, ReadFault>, Outage>
    ensures asked { Asked (read_of (contents_at folder.now) most_list) ReadSays result
        (T.state tree.old) (T.state tree.new) }
    ensures small { IfOk result (λ r. IfOk r (λ bytes. length bytes ≤ 67108864)) }
{
    let path = contents_in(alloc, folder)?;
    ask_read(tree, &path, MOST_LIST)
}

/// Reads the contents list.
pub(crate) fn read_list<T: Tree>(
    alloc: Global,
    wanted: &LookFor<'_>,
    kept: List<u8>,
    tree: &mut T,
) -> Result<LookNow, Outage>
    ensures { NextIs (look_contents (wanted_view wanted.now) kept)
        (now_means (wanted_view wanted.now)) result (T.state tree.old) (T.state tree.new) }
{
    match ask_list(alloc, wanted.folder, tree) {
        Ok(reply) => Ok(contents_next(alloc, wanted, kept, reply)?),
        Err(outage) => {
            drop(kept);
            Err(outage)
        }
    }
}
