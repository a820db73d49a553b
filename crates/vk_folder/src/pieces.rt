//! A file, piece by piece.
ghost use Rattle.std.specs.Prelude.{◌≡◌, ◌≤◌, length, IfOk, IfSome};
ghost use Rattle.vk_spec.specs.Standing.{OnFiles};
ghost use Rattle.vk_base.specs.Stops.{was_out, has_failed};
ghost use Rattle.vk_tree.specs.Trees.{IsTreeDisk};
ghost use Rattle.vk_tree.specs.Answers.{read_answer};
ghost use Rattle.vk_folder.specs.Folders.{IsFolderLimit, OnLimit};
ghost use Rattle.vk_folder.specs.Hashed.{OnlyPieces, PieceIs, FedIs, found_in, most_piece};

use crate::rooms::Room;
use vk_base::{Limit, List, Outage, Stop, TreePath};
use vk_digest::DigestRun;
use vk_tree::{ReadFault, Tree};

// The most bytes that are asked for at once.
const PIECE: u32 = 65_536;

// A piece of a file; `None` where the file isn't there.
fn piece_at<T: Tree>(tree: &mut T, path: &TreePath, at: u64) -> Result<Option<List<u8>>, Outage>
    ensures is { OnFiles (PieceIs path.now at result) (T.state tree.old) }
    ensures tree { OnFiles IsTreeDisk (T.state tree.old) }
    ensures small { IfOk result (λ o. IfSome o (λ piece. length piece ≤ most_piece)) }
    ensures reads { OnlyPieces path.now (was_out result) (T.state tree.old) (T.state tree.new) }
{
    found_in(tree.piece(path, at, PIECE))
}

// What was found where a piece was asked for; a file that isn't there is no fault.
fn found_in(answer: Result<List<u8>, Stop<ReadFault>>) -> Result<Option<List<u8>>, Outage>
    ensures { result ≡ found_in answer }
{
    match answer {
        Ok(piece) => Ok(Some(piece)),
        Err(Stop::Fault(ReadFault::Missing | ReadFault::TooLarge)) => Ok(None),
        Err(Stop::Failed) => Err(Outage::Failed),
        Err(Stop::Memory(memory)) => Err(Outage::Memory(memory)),
    }
}

/// Gives a file to a run, piece by piece, and answers the room that is left. `None` where the file
/// isn't there. A piece that is shorter than asked for is the last one.
pub(crate) fn feed<T: Tree>(
    tree: &mut T,
    path: &TreePath,
    run: &mut DigestRun,
    room: Room,
) -> Result<Option<Room>, Stop<Limit>>
    ensures is { OnFiles (FedIs path.now room run.old run.new result) (T.state tree.old) }
    ensures limits { OnLimit result (IsFolderLimit room.most) }
    ensures most { IfOk result (λ o. IfSome o (λ after. after.most ≡ room.most)) }
    ensures reads { OnlyPieces path.now (has_failed result) (T.state tree.old) (T.state tree.new) }
{
    let mut room = room;
    let mut at = 0;
    loop {
        let Some(piece) = piece_at(tree, path, at)? else {
            return Ok(None);
        };
        room = room.take(piece.len())?;
        run.update(piece.as_slice());
        if piece.len() < PIECE as usize {
            return Ok(Some(room));
        }
        at += PIECE as u64;
    }
}
