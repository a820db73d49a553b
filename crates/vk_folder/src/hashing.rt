//! The digest of one file.
ghost use Rattle.std.specs.Prelude.{◌≡◌, ◌∷◌, ◌++◌, [], IfOk, IfSome, Some};
ghost use Rattle.vk_spec.specs.Paths.{Path, Begins};
ghost use Rattle.vk_spec.specs.Standing.{OnFiles};
ghost use Rattle.vk_base.specs.Paths.{IsPath};
ghost use Rattle.vk_base.specs.Stops.{has_failed};
ghost use Rattle.vk_folder.specs.Folders.{IsFolderLimit, OnLimit};
ghost use Rattle.vk_folder.specs.Hashed.{OnlyPieces, HashedIs, SeenIs};

use crate::pieces::feed;
use crate::rooms::Room;
use std::alloc::Global;
use vk_base::{Limit, Memory, Stop, TreePath};
use vk_digest::{Digest, DigestRun};
use vk_tree::Tree;

/// A file's digest, and the room that is left after its bytes.
#[derive(Clone, Copy)]
pub(crate) struct Hashed {
    pub(crate) digest: Digest,
    pub(crate) room: Room,
}

// The digest of a file; `None` where it isn't there.
fn hash_file<T: Tree>(
    tree: &mut T,
    path: &TreePath,
    room: Room,
) -> Result<Option<Hashed>, Stop<Limit>>
    ensures is { OnFiles (HashedIs path.now room result) (T.state tree.old) }
    ensures limits { OnLimit result (IsFolderLimit room.most) }
    ensures most { IfOk result (λ o. IfSome o (λ file. file.room.most ≡ room.most)) }
    ensures reads { OnlyPieces path.now (has_failed result) (T.state tree.old) (T.state tree.new) }
{
    let mut run = DigestRun::new();
    match feed(tree, path, &mut run, room)? {
        Some(room) => Ok(Some(Hashed {
            digest: run.finish(),
            room,
        })),
        None => Ok(None),
    }
}

// Tells a caller what every path keeps.
fn known(path: &TreePath)
    ensures { IsPath path.now }
{
    let _ = path.parts();
}

// The path of a file that is seen from a folder; `None` where it lies elsewhere, which no tree that
// tells its files says.
fn path_below(alloc: Global, folder: &TreePath, seen: &TreePath) -> Result<Option<TreePath>, Memory>
    ensures path { IsPath seen.now }
    ensures below { (rest : Path) → seen.now ≡ (46 ∷ []) ∷ rest
        → IfOk result (λ path. path ≡ Some (folder.now ++ rest)) }
    ensures within { IfOk result (λ o. IfSome o (Begins folder.now)) }
{
    known(folder);
    known(seen);
    if seen.is_rooted() || seen.steps_up() > 0 {
        return Ok(None);
    }
    Ok(Some(folder.join(alloc, seen)?))
}

/// The digest of a file that is seen from a folder; `None` where it isn't there.
pub(crate) fn hash_below<T: Tree>(
    alloc: Global,
    tree: &mut T,
    folder: &TreePath,
    seen: &TreePath,
    room: Room,
) -> Result<Option<Hashed>, Stop<Limit>>
    ensures path { IsPath seen.now }
    ensures is { OnFiles (SeenIs folder.now seen.now room result) (T.state tree.old) }
    ensures limits { OnLimit result (IsFolderLimit room.most) }
    ensures most { IfOk result (λ o. IfSome o (λ file. file.room.most ≡ room.most)) }
    ensures reads { OnlyPieces folder.now (has_failed result) (T.state tree.old)
        (T.state tree.new) }
{
    match path_below(alloc, folder, seen)? {
        Some(path) => hash_file(tree, &path, room),
        None => Ok(None),
    }
}
