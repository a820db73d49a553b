//! A whole look at an entry of a cache.
ghost use Rattle.std.specs.Prelude.{◌≡◌, IfOk};
ghost use Rattle.vk_spec.specs.Standing.{OnFiles};
ghost use Rattle.vk_base.specs.Stops.{was_out};
ghost use Rattle.vk_protocol.specs.Asking.{split};
ghost use Rattle.vk_protocol.specs.Runs.{Ran};
ghost use Rattle.vk_places.specs.Places.{entry_at};
ghost use Rattle.vk_look.specs.LookIs.{LookIs, wanted_in};
ghost use Rattle.vk_look.specs.Looks.{IsByBytes, look_of};
ghost use Rattle.vk_look.specs.LookCalls.{ReadOnceBelow};
ghost use Rattle.vk_looking.specs.LookMachine.{wanted_view};

use crate::looking::{LookFor, Looking, end_of};
use std::alloc::Global;
use vk_base::{Limit, Outage, Stop, TreePath};
use vk_digest::Digest;
use vk_look::Look;
use vk_places::entry_in;
use vk_protocol::{joined, run};
use vk_tree::Tree;

// All calls of a look.
fn look_for<T: Tree>(
    alloc: Global,
    wanted: LookFor<'_>,
    tree: &mut T,
) -> Result<Result<Look, Limit>, Outage>
    ensures { Ran (look_of (wanted_view wanted.entry)) result (T.state tree.old)
        (T.state tree.new) }
{
    let mut look = Looking::new(alloc, wanted);
    match run(&mut look, tree) {
        Ok(()) => Ok(end_of(look)?),
        Err(outage) => {
            drop(look);
            Err(outage)
        }
    }
}

// All calls of a look at the entry that a cache has for a digest.
fn look_in<T: Tree>(
    alloc: Global,
    tree: &mut T,
    cache: &TreePath,
    hash: &Digest,
    text: &[u8],
    most: u64,
) -> Result<Result<Look, Limit>, Outage>
    ensures { Ran (look_of (wanted_in cache.now hash.now.bytes text.now most)) result
        (T.state tree.old) (T.state tree.new) }
{
    let folder = entry_in(alloc, cache, hash)?;
    let wanted = LookFor {
        folder: &folder,
        digest: hash,
        text,
        most,
    };
    look_for(alloc, wanted, tree)
}

/// What a cache has for a text with this digest. `Bytes` comes exactly where it is a valid entry
/// of this text that lists more than `most` bytes, and no other limit comes. Each listed file is
/// read once, with its listed size as the limit; nothing is read but at the entry and below it.
pub fn look<T: Tree>(
    alloc: Global,
    tree: &mut T,
    cache: &TreePath,
    hash: &Digest,
    text: &[u8],
    most: u64,
) -> Result<Look, Stop<Limit>>
    ensures is { OnFiles (λ d. IfOk (split result)
        (λ l. LookIs (wanted_in cache.now hash.now.bytes text.now most) l d)) (T.state tree.old) }
    ensures ran { Ran (look_of (wanted_in cache.now hash.now.bytes text.now most)) (split result)
        (T.state tree.old) (T.state tree.new) }
    ensures limit { IfOk (split result) (IsByBytes most) }
    ensures reads { ReadOnceBelow (entry_at cache.now hash.now.bytes) (was_out (split result))
        (T.state tree.old) (T.state tree.new) }
{
    joined(look_in(alloc, tree, cache, hash, text, most))
}
