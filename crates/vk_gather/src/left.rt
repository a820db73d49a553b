//! The files that are left to read, and those that were read.
ghost use Rattle.std.specs.Prelude.{◌≡◌, ◌≤◌, ◌++◌, ◌∷◌, [], IfOk, ℕ, length, map, reverse};
ghost use Rattle.vk_spec.specs.Paths.{Path};
ghost use Rattle.vk_entry.specs.PackageViews.{file_view};
ghost use Rattle.vk_gather.specs.FilesToGather.{Follow, IsSeen};
ghost use Rattle.vk_gather.specs.GatherMachine.{files_left, now_means, with_one};

use crate::gathering::GatherNow;
use std::alloc::Global;
use std::marker::Model;
use vk_base::{List, Memory, TreePath};
use vk_entry::{Package, PackageFile};

/// Files that are left to read, and those that were read.
#[derive(Drop)]
pub(crate) struct FilesLeft {
    next: TreePath,
    // The next one last.
    todo: List<TreePath>,
    files: List<PackageFile>,
    room: u64,
}

impl Model for FilesLeft {
    ghost use Rattle.std.specs.Prelude.{◌∷◌, map, reverse};
    ghost use Rattle.vk_entry.specs.PackageViews.{file_view};
    ghost use Rattle.vk_gather.specs.FilesToGather.{FilesToGather, Follow};

    ghost Value = { FilesToGather };

    ghost view = { λ l. record {
      next = l.next;
      later = reverse l.todo;
      so_far = record { files = map file_view l.files; room = l.room };
    } };

    ghost invariant = { λ l. Follow (map file_view l.files) (l.next ∷ reverse l.todo) };
}

// What is left of these files, the next one last.
fn left_of(todo: List<TreePath>, files: List<PackageFile>, room: u64) -> GatherNow
    requires { Follow (map file_view files) (reverse todo) }
    ensures { (most : ℕ) (folder : Path) → now_means most folder result
        ≡ files_left most folder (reverse todo)
        (record { files = map file_view files; room = room }) }
{
    let mut todo = todo;
    match todo.pop() {
        Some(next) => GatherNow::Files(FilesLeft {
            next,
            todo,
            files,
            room,
        }),
        None => GatherNow::Ended(Ok(Package::from_files(files))),
    }
}

/// All files of these paths, the next one last.
pub(crate) fn all_left(alloc: Global, todo: List<TreePath>, most: u64) -> GatherNow
    requires { Follow [] (reverse todo) }
    ensures { (folder : Path) → now_means most folder result
        ≡ files_left most folder (reverse todo) (record { files = []; room = most }) }
{
    left_of(todo, List::new(alloc), most)
}

// With one more file.
fn with_file(
    path: TreePath,
    bytes: List<u8>,
    files: List<PackageFile>,
) -> Result<List<PackageFile>, Memory>
    ensures { IfOk result (λ fs. map file_view fs
        ≡ map file_view files ++ record { path = path; bytes = bytes } ∷ []) }
{
    let mut files = files;
    files.push(PackageFile { path, bytes })?;
    Ok(files)
}

impl FilesLeft {
    /// The path of the next one, as it is seen from the folder.
    pub(crate) fn next(&self) -> &TreePath
        ensures next { result.now ≡ self.now.next }
        ensures seen { IsSeen result.now }
    {
        &self.next
    }

    /// How many bytes the files that are left may have.
    pub(crate) fn room(&self) -> u64
        ensures { result ≡ self.now.so_far.room }
    {
        self.room
    }

    /// What is left where the next one isn't there.
    pub(crate) fn skip(self) -> GatherNow
        ensures { (most : ℕ) (folder : Path) → now_means most folder result
            ≡ files_left most folder self.later self.so_far }
    {
        let FilesLeft {
            next,
            todo,
            files,
            room,
        } = self;
        drop(next);
        left_of(todo, files, room)
    }

    /// What is left once the next one was read.
    pub(crate) fn take(self, bytes: List<u8>) -> Result<GatherNow, Memory>
        requires { length bytes ≤ self.so_far.room }
        ensures { IfOk result (λ now. (most : ℕ) (folder : Path) → now_means most folder now
            ≡ files_left most folder self.later (with_one self.next bytes self.so_far)) }
    {
        let FilesLeft {
            next,
            todo,
            files,
            room,
        } = self;
        let size = bytes.len() as u64;
        let files = with_file(next, bytes, files)?;
        Ok(left_of(todo, files, room - size))
    }
}
