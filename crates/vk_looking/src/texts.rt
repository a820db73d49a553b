//! The first calls of a look: what stands at the entry, and its text.
ghost use Rattle.std.specs.Prelude.{◌≡◌, Ok};
ghost use Rattle.std.specs.Str.{bytes_eq};
ghost use Rattle.sha2.specs.Sha256.{sha256};
ghost use Rattle.vk_spec.specs.Calls.{read_of};
ghost use Rattle.vk_tree.specs.Answers.{kind_view, read_refusal};
ghost use Rattle.vk_protocol.specs.Asking.{ReadSays, reply_by};
ghost use Rattle.vk_protocol.specs.Runs.{Asked, NextIs};
ghost use Rattle.vk_places.specs.Places.{text_at};
ghost use Rattle.vk_look.specs.LookIs.{Wanted, most_text};
ghost use Rattle.vk_look.specs.Looks.{look_kept, look_of, look_stands, look_text};
ghost use Rattle.vk_looking.specs.LookMachine.{now_means, wanted_view};

use crate::looking::{LookFor, LookNow, damaged};
use std::alloc::Global;
use vk_base::{List, Outage};
use vk_digest::Digest;
use vk_look::{Harm, Look};
use vk_places::text_in;
use vk_protocol::{ask_kind, ask_read};
use vk_tree::{Kind, ReadFault, Tree};

/// The most bytes of a contents list, and of a text that is longer than the wanted one.
pub(crate) const MOST_LIST: u64 = 67_108_864;

fn kind_next(kind: Kind) -> LookNow
    ensures { (w : Wanted) → now_means w result ≡ look_stands w (Ok (kind_view kind)) }
{
    match kind {
        Kind::File => damaged(Harm::Text),
        Kind::Folder => LookNow::Text,
        Kind::Absent => LookNow::Ended(Ok(Look::Absent)),
    }
}

/// Asks what stands at the entry.
#[tactic(auto, unfolding(vk_look::specs::Looks::look_of))]
pub(crate) fn ask_what_stands<T: Tree>(
    wanted: &LookFor<'_>,
    tree: &mut T,
) -> Result<LookNow, Outage>
    ensures { NextIs (look_of (wanted_view wanted.now)) (now_means (wanted_view wanted.now)) result
        (T.state tree.old) (T.state tree.new) }
{
    let kind = ask_kind(tree, wanted.folder)?;
    Ok(kind_next(kind))
}

pub(crate) fn has_digest(bytes: &[u8], digest: &Digest) -> bool
    ensures { result ≡ bytes_eq (sha256 bytes.now) digest.now.bytes }
{
    Digest::of(bytes).bytes.as_slice() == digest.bytes.as_slice()
}

fn text_next(wanted: &LookFor<'_>, reply: Result<List<u8>, ReadFault>) -> LookNow
    ensures { now_means (wanted_view wanted.now) result
        ≡ look_kept (wanted_view wanted.now) (reply_by (λ b. b) read_refusal reply) }
{
    match reply {
        Ok(kept) => {
            if has_digest(kept.as_slice(), wanted.digest) {
                LookNow::Contents { kept }
            } else {
                damaged(Harm::Text)
            }
        }
        Err(ReadFault::Missing) => damaged(Harm::Text),
        Err(ReadFault::TooLarge) => damaged(Harm::Text),
    }
}

// Asks for the text.
fn ask_text<T: Tree>(
    alloc: Global,
    wanted: &LookFor<'_>,
    tree: &mut T,
) -> Result<Result<List<u8>, ReadFault>, Outage>
    ensures { Asked (read_of (text_at wanted.now.folder.now) (most_text (wanted_view wanted.now)))
        ReadSays result (T.state tree.old) (T.state tree.new) }
{
    let path = text_in(alloc, wanted.folder)?;
    let most = MOST_LIST.max(wanted.text.len() as u64);
    ask_read(tree, &path, most)
}

/// Reads the text.
pub(crate) fn read_text<T: Tree>(
    alloc: Global,
    wanted: &LookFor<'_>,
    tree: &mut T,
) -> Result<LookNow, Outage>
    ensures { NextIs (look_text (wanted_view wanted.now)) (now_means (wanted_view wanted.now))
        result (T.state tree.old) (T.state tree.new) }
{
    let reply = ask_text(alloc, wanted, tree)?;
    Ok(text_next(wanted, reply))
}
