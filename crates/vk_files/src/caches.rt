//! What was read of a tree, by path.
ghost use Rattle.std.specs.Prelude.{◌≡◌, ◌<◌, ◌++◌, ◌∷◌, [], ℕ, List, Some, None, IfOk, IfErr};
ghost use Rattle.std.specs.Prelude.{length, option_map, slice_get};
ghost use Rattle.indexmap.specs.IndexMap.{spare};
ghost use Rattle.vk_spec.specs.Lists.{NoRepeats};
ghost use Rattle.vk_spec.specs.Paths.{Path};
ghost use Rattle.vk_spec.specs.Standing.{Disk};
ghost use Rattle.vk_spec.specs.Calls.{Says, NoLonger, read_of, noted};
ghost use Rattle.vk_tree.specs.Answers.{read_answer, read_failed};
ghost use Rattle.vk_files.specs.Kept.{ReadOnce, most_bytes, paths_of, seen_in};
ghost use Rattle.vk_files.specs.Notes.{IsNoteAt};
ghost use Rattle.vk_files.specs.Views.{cached, kept_of, kept_at, same_path, seen_view};
ghost use Rattle.vk_files.specs.Within.{LooksWithin};
ghost use Rattle.vk_base.specs.Stops.{has_failed, stop_fault_in};
ghost use Rattle.vk_files.specs.StopViews.{noted_by};
ghost use Rattle.vk_files.specs.ReadFaults.{seen_by};

use crate::found::{FileBytes, Found};
use crate::rooms::Room;
use indexmap::IndexMap;
use std::alloc::Global;
use vk_base::{List, Stop, TreePath};
use vk_tree::{ReadFault, Tree};

/// The longest file that is kept, in bytes.
pub const MOST_BYTES: u64 = 16_777_216;

/// What was read of a tree, by path. What stands at a path is kept, so that no path is read twice.
#[derive(Drop)]
pub struct FileCache {
    pub(crate) found: IndexMap<TreePath, Found>,
    pub(crate) room: Room,
}

// What a read that is refused found.
fn found_by(fault: ReadFault) -> Found
    ensures { seen_view result ≡ seen_by fault }
{
    match fault {
        ReadFault::Missing => Found::Absent,
        ReadFault::TooLarge => Found::TooLarge,
    }
}

// What a call of the tree found.
#[tactic(auto, using(crate::proofs::OnceLemmas::seen_by_fault))]
fn found_in<F>(read: Result<List<u8>, Stop<ReadFault>>) -> Result<Found, Stop<F>>
    requires { NoLonger most_bytes (read_answer read) }
    ensures seen { (path : Path) (d : Disk) → Says (read_of path most_bytes) (read_answer read) d →
        IfOk result (λ found. seen_view found ≡ seen_in (d path)) }
    ensures no_fault { IfErr result (λ e. stop_fault_in e ≡ None) }
    ensures failed { has_failed result ≡ read_failed read }
    ensures noted { (path : Path) → noted path (read_answer read) ≡ noted_by path result }
{
    match read {
        Ok(bytes) => Ok(Found::Bytes(FileBytes { bytes })),
        Err(Stop::Fault(fault)) => Ok(found_by(fault)),
        Err(Stop::Failed) => Err(Stop::Failed),
        Err(Stop::Memory(memory)) => Err(Stop::Memory(memory)),
    }
}

impl FileCache {
    /// Nothing was read yet. Takes no memory.
    pub(crate) fn new(alloc: Global) -> FileCache
        ensures { kept_of result ≡ [] }
    {
        FileCache {
            found: IndexMap::new(alloc),
            room: Room::new(),
        }
    }

    /// Tells a caller what every cache keeps: no path stands twice.
    pub(crate) fn known(&self)
        ensures { NoRepeats (paths_of (kept_of self.now)) }
    {
        let _ = self.found.len();
    }

    /// How many paths were looked at.
    pub(crate) fn len(&self) -> usize
        ensures { result ≡ length (kept_of self.now) }
    {
        self.found.len()
    }

    // Keeps what stands at a path, for which there is room.
    fn keep(&mut self, path: TreePath, found: Found)
        requires room { 0 < spare self.old.found }
        requires new { kept_at path (kept_of self.old) ≡ None }
        ensures { kept_of self.new ≡ kept_of self.old ++ (path, seen_view found) ∷ [] }
    {
        let _ = self.found.insert(path, found);
    }

    // Asks the tree for a path that it wasn't asked for yet. The room for what stands there is
    // taken first, so that nothing that was read is forgotten.
    #[tactic(auto, using(crate::proofs::OnceLemmas::still_read, crate::proofs::OnceLemmas::found_read, crate::proofs::OnceLemmas::nothing_found, crate::proofs::OnceLemmas::seen_told, crate::proofs::WithinLemmas::none_since, crate::proofs::WithinLemmas::one_since))]
    fn ask<T: Tree, F>(&mut self, tree: &mut T, path: &TreePath) -> Result<usize, Stop<F>>
        requires { kept_at path.now (kept_of self.old) ≡ None }
        ensures once { ReadOnce (has_failed result) (cached self.old (T.state tree.old))
            (cached self.new (T.state tree.new)) }
        ensures within { LooksWithin (path.now ∷ []) (kept_of self.old) (kept_of self.new) }
        ensures there { IfOk result (IsNoteAt (same_path path.now) (kept_of self.new)) }
        ensures no_fault { IfErr result (λ e. stop_fault_in e ≡ None) }
    {
        let key = path.clone()?;
        self.found.reserve(1)?;
        let found = found_in(tree.read(path, MOST_BYTES))?;
        let place = self.found.len();
        self.keep(key, found);
        Ok(place)
    }

    /// Looks at a path, for which the tree is asked unless it was before, and tells the place of
    /// what stands there, counted from 0. It finds no fault, of whatever type the caller's faults
    /// are.
    #[tactic(auto, using(crate::proofs::WithinLemmas::nothing_since))]
    pub(crate) fn look<T: Tree, F>(
        &mut self,
        tree: &mut T,
        path: &TreePath,
    ) -> Result<usize, Stop<F>>
        ensures once { ReadOnce (has_failed result) (cached self.old (T.state tree.old))
            (cached self.new (T.state tree.new)) }
        ensures within { LooksWithin (path.now ∷ []) (kept_of self.old) (kept_of self.new) }
        ensures there { IfOk result (IsNoteAt (same_path path.now) (kept_of self.new)) }
        ensures no_fault { IfErr result (λ e. stop_fault_in e ≡ None) }
    {
        match self.found.get_index_of(path) {
            Some(place) => Ok(place),
            None => self.ask(tree, path),
        }
    }

    /// What stands at the path with this place.
    pub(crate) fn at(&self, place: usize) -> &Found
        requires { place < length (kept_of self.now) }
        ensures { option_map (λ e. e.1) (slice_get (kept_of self.now) place)
            ≡ Some (seen_view result.now) }
    {
        self.found.get_index(place).unwrap().1
    }
}
