//! Files by their paths, as a finite map.
ghost use Rattle.std.specs.Prelude.{◌≡◌, ◌↔◌, IsTrue, true, false, IfOk, OnOk, OnErr};
ghost use Rattle.std.specs.Prelude.{option_map};
ghost use Rattle.std.specs.List.{All};
ghost use Rattle.std.specs.FinMap as map;
ghost use Rattle.vk_spec.specs.Paths.{IsOther};
ghost use Rattle.vk_spec.specs.Files.{IsTree, HasRoomFor, IsFreeAbove, IsFreeBelow, AgreeWhere};
ghost use Rattle.vk_spec.specs.Standing.{disk_of, Stands, IsFolder};
ghost use Rattle.vk_spec.specs.Calls.{KindIs, Says, NoLonger, Content, CanMake, is_failed};
ghost use Rattle.vk_spec.specs.Calls.{list_of, rename_of, remove_of};
ghost use Rattle.vk_base.specs.Paths.{is_part};
ghost use Rattle.vk_tree.specs.Answers.{kind_view, list_answer, move_answer, remove_answer};

use crate::listing::list_in;
use crate::moving::moved_in;
use crate::trees::{Kind, ListFault, Listed, MoveFault, RemoveFault};
use std::alloc::{AllocError, AllocFailed, Global};
use std::collections::BTreeMap;
use std::marker::Model;
use std::ops::Bound;
use vk_base::{List, Stop, TreePath};

/// Files by their paths, seen as a finite map. No file lies below a file.
#[derive(Drop)]
pub struct FileMap {
    inner: BTreeMap<TreePath, List<u8>>,
}

impl Model for FileMap {
    ghost use Rattle.std.specs.Prelude.{List, ℕ};
    ghost use Rattle.std.specs.FinMap as map;
    ghost use Rattle.vk_spec.specs.Files.{Files, IsTree, coded_files};

    ghost Value = { Files };

    ghost coded = { coded_files };

    ghost view = { λ d. map.from_entries d.inner.entries };

    ghost invariant = { λ d. IsTree (map.from_entries d.inner.entries) };
}

impl FileMap {
    /// No files. Takes no memory.
    pub fn new(alloc: Global) -> FileMap
        ensures { result ≡ map.empty }
    {
        FileMap {
            inner: BTreeMap::new(alloc),
        }
    }

    /// Tells a caller what every disk keeps.
    pub fn known(&self)
        ensures { IsTree self.now }
    {
        let _ = &self.inner;
    }

    /// The bytes at a path; `None` exactly where no file stands there.
    pub fn get(&self, path: &TreePath) -> Option<&List<u8>>
        ensures { option_map (λ b. b.now) result ≡ map.get self.now path.now }
    {
        self.inner.get(path)
    }

    /// Puts a file at a path above and below which none stands.
    pub fn put(&mut self, path: TreePath, bytes: List<u8>) -> Result<(), AllocError>
        requires { HasRoomFor path self.old }
        ensures ok { OnOk result (self.new ≡ map.insert self.old path bytes) }
        ensures err { OnErr result (self.new ≡ self.old) }
        ensures other { AgreeWhere (IsOther path) self.old self.new }
        ensures tree { IsTree self.new }
    {
        self.inner.insert(path, bytes)?;
        Ok(())
    }

    /// What stands at a path. It looks at two files alone.
    pub fn kind(&self, path: &TreePath) -> Kind
        ensures { KindIs (disk_of self.now) path.now (kind_view result) }
    {
        if self.inner.contains_key(path) {
            return Kind::File;
        }
        if stands_below(&self.inner, path) {
            return Kind::Folder;
        }
        Kind::Absent
    }

    /// Whether a file stands at a path or below it.
    pub fn stands(&self, path: &TreePath) -> bool
        ensures { IsTrue result ↔ Stands (disk_of self.now) path.now }
    {
        self.inner.contains_key(path) || stands_below(&self.inner, path)
    }

    /// The entries of a folder. It looks at the files below it alone.
    pub fn list(&self, alloc: Global, dir: &TreePath) -> Result<List<Listed>, Stop<ListFault>>
        ensures listed { Says (list_of dir.now) (list_answer result) (disk_of self.now) }
        ensures small { NoLonger 100000 (list_answer result) }
        ensures parts { IfOk result (All (λ l. IsTrue (is_part l.name))) }
        ensures calm { is_failed (list_answer result) ≡ false }
    {
        list_in(alloc, &self.inner, dir)
    }

    /// Removes the file at a path. Takes no memory.
    pub fn remove(&mut self, path: &TreePath) -> Result<(), Stop<RemoveFault>>
        ensures content { Content (remove_of path.now) (remove_answer result) self.old self.new }
        ensures calm { is_failed (remove_answer result) ≡ false }
        ensures tree { IsTree self.new }
    {
        match self.inner.remove(path) {
            Some(_) => Ok(()),
            None => Err(Stop::Fault(RemoveFault::Missing)),
        }
    }

    /// Moves what stands at a path or below it to another path. It copies all files.
    pub fn rename(
        &mut self,
        alloc: Global,
        from: &TreePath,
        to: &TreePath,
    ) -> Result<(), Stop<MoveFault>>
        requires { CanMake (rename_of from.now to.now) (disk_of self.old) }
        ensures content { Content (rename_of from.now to.now) (move_answer result)
            self.old self.new }
        ensures calm { is_failed (move_answer result) ≡ false }
        ensures tree { IsTree self.new }
    {
        if !self.stands(from) {
            return Err(Stop::Fault(MoveFault::Missing));
        }
        if self.stands(to) {
            return Err(Stop::Fault(MoveFault::Exists));
        }
        self.inner = moved_in(alloc, &self.inner, from, to)?;
        Ok(())
    }

    /// Whether no file stands above the path or below it. It looks at two files alone: the last
    /// one before the path and the first one after it.
    pub fn has_room(&self, path: &TreePath) -> bool
        ensures { IsTrue result ↔ HasRoomFor path.now self.now }
    {
        !stands_above(&self.inner, path) && !stands_below(&self.inner, path)
    }
}

// Whether a file stands above the path; the last file before the path is one, if any is.
fn stands_above(inner: &BTreeMap<TreePath, List<u8>>, path: &TreePath) -> bool
    requires { IsTree (map.from_entries inner.now.entries) }
    ensures free { result ≡ false → IsFreeAbove path.now (map.from_entries inner.now.entries) }
    ensures taken { result ≡ true → IsFreeAbove path.now (map.from_entries inner.now.entries) → ⊥ }
{
    let before = (Bound::Unbounded, Bound::Excluded(path));
    match inner.range(before).next_back() {
        Some((last, _)) => last.begins(path),
        None => false,
    }
}

// Whether a file stands below the path; the first file after the path is one, if any is.
fn stands_below(inner: &BTreeMap<TreePath, List<u8>>, path: &TreePath) -> bool
    ensures free { result ≡ false → IsFreeBelow path.now (map.from_entries inner.now.entries) }
    ensures taken { result ≡ true
        → IsFolder (disk_of (map.from_entries inner.now.entries)) path.now }
{
    let after = (Bound::Excluded(path), Bound::Unbounded);
    match inner.range(after).next() {
        Some((first, _)) => path.begins(first),
        None => false,
    }
}
