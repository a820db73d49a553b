//! A tree in memory that notes its calls and tells nothing of its files to who makes them, so that
//! any call may be made: one that a tree can't do is out of memory.
ghost use Rattle.std.specs.Prelude.{ℕ, List, Err, IsTrue};
ghost use Rattle.vk_spec.specs.Paths.{Path, Begins};
ghost use Rattle.vk_spec.specs.Files.{HasRoomFor};
ghost use Rattle.vk_spec.specs.Calls.{Made, rename_of, write_of};
ghost use Rattle.vk_tree.specs.Answers.{fault_by, move_refusal, outage_fault};
ghost use Rattle.vk_tree.specs.MemTrees.{mem_files};
ghost use Rattle.vk_making_rows.specs.QuietTrees.{quiet_state};

use std::alloc::Global;
use std::mem;
use vk_base::{List, Memory, Outage, Stop, TreePath};
use vk_row_text::Reply;
use vk_tree::{Kind, ListFault, Listed, MemTree, MoveFault, ReadFault, RemoveFault, Tree};

/// Files in memory, and the calls that were noted of late.
#[derive(Drop)]
pub struct QuietTree {
    alloc: Global,
    /// The files.
    pub mem: MemTree,
    notes: Reply,
}

// Whether neither of two paths begins the other.
fn are_apart(one: &TreePath, other: &TreePath) -> bool
    ensures left { IsTrue result → Begins one.now other.now → ⊥ }
    ensures right { IsTrue result → Begins other.now one.now → ⊥ }
{
    !one.begins(other) && !other.begins(one)
}

// Notes a call.
fn note(notes: &mut Reply, call: &str, path: &TreePath) {
    if !notes.is_empty() {
        notes.push("\n");
    }
    notes.push(call);
    notes.push_path(path);
}

// Whether the file or folder at one path may be moved to the other, where nothing stands.
fn may_move(mem: &MemTree, from: &TreePath, to: &TreePath) -> bool
    ensures room { IsTrue result → HasRoomFor to.now (mem_files mem.now) }
    ensures left { IsTrue result → Begins from.now to.now → ⊥ }
    ensures right { IsTrue result → Begins to.now from.now → ⊥ }
{
    mem.has_room(to) && are_apart(from, to)
}

impl QuietTree {
    /// No files, and no calls.
    pub fn new(alloc: Global) -> Result<QuietTree, Memory> {
        Ok(QuietTree {
            alloc,
            mem: MemTree::new(alloc)?,
            notes: Reply::new(alloc),
        })
    }

    /// Where memory comes from.
    pub fn alloc(&self) -> Global {
        self.alloc
    }

    /// From here on each call fails.
    pub fn fail(&mut self) {
        self.mem.stop_at(0);
    }

    /// From here on no call fails.
    pub fn go_well(&mut self) {
        self.mem.stop_at(u64::MAX);
    }

    /// The calls that were noted, each on a line; from here on they are noted anew.
    pub fn take_notes(&mut self) -> Reply {
        mem::replace(&mut self.notes, Reply::new(self.alloc))
    }

    // Why nothing is moved to a path where something stands.
    fn moved_nothing(&mut self, from: &TreePath) -> Stop<MoveFault>
        ensures { (to : Path) → Made (rename_of from.now to) (Err (fault_by move_refusal result))
            (quiet_state self.old) (quiet_state self.new) }
    {
        match self.mem.kind(from) {
            Ok(Kind::Absent) => Stop::Fault(MoveFault::Missing),
            Ok(_) => Stop::Fault(MoveFault::Exists),
            Err(outage) => Stop::from(outage),
        }
    }

    // Why nothing is written where there is no room.
    fn wrote_nothing(&mut self, path: &TreePath) -> Outage
        ensures { (bytes : List ℕ) → Made (write_of path.now bytes) (Err (outage_fault result))
            (quiet_state self.old) (quiet_state self.new) }
    {
        match self.mem.kind(path) {
            Ok(_) => Outage::Memory(Memory::without_allocation()),
            Err(outage) => outage,
        }
    }
}

impl Tree for QuietTree {
    ghost state = { quiet_state };

    #[tactic(auto, using(crate::proofs::QuietCalls::quiet))]
    fn kind(&mut self, path: &TreePath) -> Result<Kind, Outage> {
        note(&mut self.notes, "kind ", path);
        self.mem.kind(path)
    }

    #[tactic(auto, using(crate::proofs::QuietCalls::quiet))]
    fn read(&mut self, path: &TreePath, limit: u64) -> Result<List<u8>, Stop<ReadFault>> {
        note(&mut self.notes, "read ", path);
        self.mem.read(path, limit)
    }

    #[tactic(auto, using(crate::proofs::QuietCalls::quiet))]
    fn piece(&mut self, path: &TreePath, at: u64, most: u32) -> Result<List<u8>, Stop<ReadFault>> {
        note(&mut self.notes, "piece ", path);
        self.mem.piece(path, at, most)
    }

    #[tactic(auto, using(crate::proofs::QuietCalls::quiet))]
    fn list(&mut self, dir: &TreePath) -> Result<List<Listed>, Stop<ListFault>> {
        note(&mut self.notes, "list ", dir);
        self.mem.list(dir)
    }

    fn write(&mut self, path: &TreePath, bytes: &[u8]) -> Result<(), Outage> {
        note(&mut self.notes, "write ", path);
        if self.mem.has_room(path) {
            return self.mem.write(path, bytes);
        }
        Err(self.wrote_nothing(path))
    }

    fn rename(&mut self, from: &TreePath, to: &TreePath) -> Result<(), Stop<MoveFault>> {
        note(&mut self.notes, "rename ", from);
        self.notes.push(" ");
        self.notes.push_path(to);
        if may_move(&self.mem, from, to) {
            return self.mem.rename(from, to);
        }
        Err(self.moved_nothing(from))
    }

    #[tactic(auto, using(crate::proofs::QuietCalls::quiet))]
    fn remove(&mut self, path: &TreePath) -> Result<(), Stop<RemoveFault>> {
        note(&mut self.notes, "remove ", path);
        self.mem.remove(path)
    }

    fn faults(&self) -> u64 {
        self.mem.faults()
    }
}
