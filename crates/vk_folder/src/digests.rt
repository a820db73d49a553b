//! The digests of the files below a folder.
ghost use Rattle.std.specs.Prelude.{◌≡◌, ℕ, IfOk, OnOk};
ghost use Rattle.vk_spec.specs.Paths.{Begins};
ghost use Rattle.vk_spec.specs.States.{IsNarrow};
ghost use Rattle.vk_spec.specs.Standing.{OnFiles};
ghost use Rattle.vk_base.specs.Paths.{IsPath};
ghost use Rattle.vk_base.specs.Stops.{has_failed};
ghost use Rattle.vk_tree.specs.Trees.{IsTreeDisk};
ghost use Rattle.vk_folder.specs.Folders.{AtPaths, FolderTold, IsFolderLimit, OnLimit, ReadsOnly};
ghost use Rattle.vk_folder.specs.Hashed.{OnlyPieces, PathsTold, AddedIs, DigestsTold, AreSeenFiles};
ghost use Rattle.vk_folder.specs.Hashed.{unwalked};

use crate::hashing::hash_below;
use crate::rooms::Room;
use std::alloc::{AllocError, AllocFailed, Global};
use vk_base::{Limit, List, Stop, TreePath};
use vk_digest::Digest;
use vk_tree::Tree;
use vk_walk::{WalkFault, walk};

/// A file, by its path as it is seen from its folder, and the SHA-256 of its bytes.
#[derive(Drop)]
pub struct FileDigest {
    /// Its path.
    pub path: TreePath,
    /// The digest of its bytes.
    pub digest: Digest,
}

/// The digests of the files below a folder, each file once, in the order of the texts of their
/// paths; none where nothing lies below it. `Entries`, `Files` and `Depth` come exactly where a
/// walk of the folder passes that limit first, and else `Bytes(most)` exactly where the files have
/// more than so many bytes together. Over any tree no other limit comes. Nothing but listing and
/// reading is done, no file is read but at the folder's path or below it, and at most 65,536 bytes
/// are read at once.
pub fn folder_digests<T: Tree>(
    alloc: Global,
    tree: &mut T,
    folder: &TreePath,
    most: u64,
) -> Result<List<FileDigest>, Stop<Limit>>
    ensures is { OnFiles (FolderTold most folder.now result) (T.state tree.old) }
    ensures limits { OnLimit result (IsFolderLimit most) }
    ensures reads { ReadsOnly (Begins folder.now) (has_failed result) (T.state tree.old)
        (T.state tree.new) }
    ensures narrow { IsNarrow 65536 (T.state tree.old) (T.state tree.new) }
    ensures tree { OnFiles IsTreeDisk (T.state tree.old) }
    ensures paths { IfOk result AtPaths }
{
    let paths = paths_below(alloc, tree, folder)?;
    digests_of(alloc, tree, folder, paths, most)
}

// The paths of the files below a folder; none where nothing lies below it.
fn paths_below<T: Tree>(
    alloc: Global,
    tree: &mut T,
    folder: &TreePath,
) -> Result<List<TreePath>, Stop<Limit>>
    ensures is { OnFiles (PathsTold folder.now result) (T.state tree.old) }
    ensures limits { (most : ℕ) → OnLimit result (IsFolderLimit most) }
    ensures reads { OnlyPieces folder.now (has_failed result) (T.state tree.old)
        (T.state tree.new) }
    ensures tree { OnFiles IsTreeDisk (T.state tree.old) }
{
    match walk(alloc, tree, folder) {
        Ok(paths) => Ok(paths),
        Err(stop) => unwalked(alloc, stop),
    }
}

// What there is where a folder wasn't walked.
fn unwalked(alloc: Global, stop: Stop<WalkFault>) -> Result<List<TreePath>, Stop<Limit>>
    ensures { result ≡ unwalked stop }
{
    match stop {
        Stop::Fault(WalkFault::Missing) => Ok(List::new(alloc)),
        Stop::Fault(WalkFault::Deep) => Err(Stop::Fault(Limit::Depth)),
        Stop::Fault(WalkFault::Entries) => Err(Stop::Fault(Limit::Entries)),
        Stop::Fault(WalkFault::Files) => Err(Stop::Fault(Limit::Files)),
        Stop::Failed => Err(Stop::Failed),
        Stop::Memory(memory) => Err(Stop::Memory(memory)),
    }
}

// Adds the digest of a file that is seen from a folder, and answers the room that is left. One that
// isn't there is passed over.
fn add_digest<T: Tree>(
    alloc: Global,
    tree: &mut T,
    folder: &TreePath,
    seen: TreePath,
    room: Room,
    digests: &mut List<FileDigest>,
) -> Result<Room, Stop<Limit>>
    ensures path { IsPath seen }
    ensures paths { OnOk result (AtPaths digests.old → AtPaths digests.new) }
    ensures is { OnFiles (AddedIs folder.now seen room digests.old result digests.new)
        (T.state tree.old) }
    ensures limits { OnLimit result (IsFolderLimit room.most) }
    ensures most { IfOk result (λ after. after.most ≡ room.most) }
    ensures reads { OnlyPieces folder.now (has_failed result) (T.state tree.old)
        (T.state tree.new) }
{
    let Some(file) = hash_below(alloc, tree, folder, &seen, room)? else {
        return Ok(room);
    };
    digests.push(FileDigest {
        path: seen,
        digest: file.digest,
    })?;
    Ok(file.room)
}

// The digests of files that are seen from a folder.
#[tactic(auto, using(crate::proofs::PieceLemmas::pieces_nothing))]
fn digests_of<T: Tree>(
    alloc: Global,
    tree: &mut T,
    folder: &TreePath,
    paths: List<TreePath>,
    most: u64,
) -> Result<List<FileDigest>, Stop<Limit>>
    requires { OnFiles (AreSeenFiles folder.now paths) (T.state tree.old) }
    ensures is { OnFiles (DigestsTold most folder.now result) (T.state tree.old) }
    ensures limits { OnLimit result (IsFolderLimit most) }
    ensures reads { OnlyPieces folder.now (has_failed result) (T.state tree.old)
        (T.state tree.new) }
    ensures paths { IfOk result AtPaths }
{
    let mut digests = List::new(alloc);
    let mut room = Room { most, left: most };
    for path in paths.into_vec() {
        room = add_digest(alloc, tree, folder, path, room, &mut digests)?;
    }
    Ok(digests)
}
