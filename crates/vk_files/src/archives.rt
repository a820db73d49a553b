//! A tree, and what was read of it.
ghost use Rattle.std.specs.Prelude.{◌≡◌, [], length};
ghost use Rattle.vk_spec.specs.Calls.{Made, read_of};
ghost use Rattle.vk_spec.specs.Lists.{NoRepeats};
ghost use Rattle.vk_tree.specs.Answers.{read_answer};
ghost use Rattle.vk_files.specs.Kept.{IsFaithful, paths_of};
ghost use Rattle.vk_files.specs.Views.{held, kept_of};

use crate::caches::FileCache;
use std::alloc::Global;
use std::marker::Model;
use vk_base::{List, Stop, TreePath};
use vk_tree::{ReadFault, Tree};

/// A tree, and what was read of it by path. What is kept is what the tree has, where it tells its
/// files, and no path that is kept is asked for again.
#[derive(Drop)]
pub struct Archive<T: Tree> {
    pub(crate) alloc: Global,
    pub(crate) tree: T,
    pub(crate) files: FileCache,
}

/// An archive taken apart.
#[derive(Drop)]
pub struct Parts<T> {
    /// The tree.
    pub tree: T,
    /// What was read of it.
    pub files: FileCache,
}

impl<T: Tree> Model for Archive<T> {
    ghost use Rattle.vk_files.specs.Kept.{IsFaithful};
    ghost use Rattle.vk_files.specs.Views.{ArchiveView, cached, kept_of};
    ghost use Rattle.std.specs.Coded.{codes};

    ghost Value = { ArchiveView T };

    ghost coded = { Prim.hlevel codes };

    ghost view = { λ a. record { kept = kept_of a.files; tree = a.tree } };

    ghost invariant = { λ a. IsFaithful (cached a.files (T.state a.tree)) };
}

impl<T: Tree> Archive<T> {
    /// A tree of which nothing was read yet. Takes no memory.
    pub fn new(alloc: Global, tree: T) -> Archive<T>
        ensures tree { result.tree ≡ tree }
        ensures kept { result.kept ≡ [] }
    {
        Archive {
            alloc,
            tree,
            files: FileCache::new(alloc),
        }
    }

    /// Where what is read gets its memory.
    pub fn alloc(&self) -> Global {
        self.alloc
    }

    /// The tree as it stands.
    pub fn tree(&self) -> &T
        ensures { result.now ≡ self.now.tree }
    {
        &self.tree
    }

    /// How many paths are kept.
    pub fn len(&self) -> usize
        ensures { result ≡ length self.now.kept }
    {
        self.files.len()
    }

    /// Tells a caller what every archive keeps: no path stands twice, and what is kept is what the
    /// tree has.
    pub fn known(&self)
        ensures distinct { NoRepeats (paths_of self.now.kept) }
        ensures faithful { IsFaithful (held T.state self.now) }
    {
        self.files.known();
    }

    /// Reads a file as the tree does, with a limit of its own, and keeps nothing of it.
    pub fn read_apart(&mut self, path: &TreePath, limit: u64) -> Result<List<u8>, Stop<ReadFault>>
        ensures read { Made (read_of path.now limit) (read_answer result)
            (T.state self.old.tree) (T.state self.new.tree) }
        ensures kept { self.new.kept ≡ self.old.kept }
    {
        self.tree.read(path, limit)
    }

    /// The tree as it stands, and what was read of it. Takes no memory.
    pub fn into_parts(self) -> Parts<T>
        ensures tree { result.tree ≡ self.tree }
        ensures files { kept_of result.files ≡ self.kept }
    {
        Parts {
            tree: self.tree,
            files: self.files,
        }
    }

    /// The tree as it stands. Takes no memory.
    pub fn into_tree(self) -> T
        ensures { result ≡ self.tree }
    {
        self.tree
    }
}
