//! A tree of files in memory.
ghost use Rattle.std.specs.Prelude.{◌≡◌, ◌≤◌, ◌↔◌, ◌++◌, IsTrue, IfOk, OnOk, OnErr, Some};
ghost use Rattle.std.specs.Prelude.{option_map, true, false, take, drop};
ghost use Rattle.std.specs.List.{All};
ghost use Rattle.std.specs.FinMap as map;
ghost use Rattle.vk_spec.specs.Counts.{Counted};
ghost use Rattle.vk_spec.specs.Files.{HasRoomFor, IsTree};
ghost use Rattle.vk_spec.specs.Standing.{disk_of, OnFiles};
ghost use Rattle.vk_spec.specs.Calls.{Made, CanMake, NoLonger, is_failed, noted};
ghost use Rattle.vk_spec.specs.Calls.{kind_of, read_of, piece_of, list_of, write_of, rename_of};
ghost use Rattle.vk_spec.specs.Calls.{remove_of};
ghost use Rattle.vk_tree.specs.Answers.{kind_answer, read_answer, list_answer, write_answer};
ghost use Rattle.vk_tree.specs.Answers.{move_answer, remove_answer};
ghost use Rattle.vk_base.specs.Paths.{is_part};
ghost use Rattle.vk_base.specs.Schedules.{turn_of, is_calm, is_wrong, with_listed, with_stop};
ghost use Rattle.vk_tree.specs.MemTrees.{IsNewTree, MemCalls, mem_files, mem_log, mem_schedule};
ghost use Rattle.vk_tree.specs.MemTrees.{mem_state, with_file, with_schedule, called};
ghost use Rattle.vk_tree.specs.MemTrees.{IsHalfPut, SaysAsked, most_for};

use crate::file_maps::FileMap;
use crate::trees::{Kind, ListFault, Listed, MoveFault, ReadFault, RemoveFault, Tree};
use std::alloc::{AllocError, AllocFailed, Global};
use vk_base::{List, Memory, Outage, Schedule, Stop, TreePath};

/// A tree in memory that tells its files.
#[derive(Drop)]
pub struct MemTree {
    alloc: Global,
    files: FileMap,
    log: List<TreePath>,
    changes: u64,
    faults: u64,
    widest: u64,
    schedule: Schedule,
}

impl MemTree {
    /// A tree without files: its log is empty, all its counts are 0, and no call is to fail.
    pub fn new(alloc: Global) -> Result<MemTree, Memory>
        ensures { IfOk result (λ m. IsNewTree m) }
    {
        Ok(MemTree {
            alloc,
            files: FileMap::new(alloc),
            log: List::new(alloc),
            changes: 0,
            faults: 0,
            widest: 0,
            schedule: Schedule::new(alloc),
        })
    }

    /// Puts a file at a path above and below which no file stands. It counts as no call, and
    /// raises no count.
    pub fn put(&mut self, path: &TreePath, bytes: &[u8]) -> Result<(), Memory>
        requires { HasRoomFor path.now (mem_files self.old) }
        ensures ok { OnOk result
            (mem_state self.new ≡ with_file path.now bytes.now (mem_state self.old)) }
        ensures err { OnErr result (mem_state self.new ≡ mem_state self.old) }
        ensures schedule { mem_schedule self.new ≡ mem_schedule self.old }
    {
        put_file(self.alloc, &mut self.files, path, bytes)
    }

    /// Whether a file may be put at a path: none stands above it or below it. Takes no memory, and
    /// looks at two files alone.
    pub fn has_room(&self, path: &TreePath) -> bool
        ensures { IsTrue result ↔ HasRoomFor path.now (mem_files self.now) }
    {
        self.files.has_room(path)
    }

    /// The calls with these numbers fail, counted from 1 over every call of the trait but
    /// `faults`, in place of those named before. The calls are counted on.
    pub fn fail_at(&mut self, calls: &[u64]) -> Result<(), Memory>
        ensures ok { OnOk result
            (self.new ≡ with_schedule (with_listed calls.now (mem_schedule self.old)) self.old) }
        ensures err { OnErr result (self.new ≡ self.old) }
    {
        self.schedule.list(self.alloc, calls)?;
        Ok(())
    }

    /// That call and every later one fails, in place of the call named before; `u64::MAX` names
    /// none. Takes no memory.
    pub fn stop_at(&mut self, call: u64)
        ensures { self.new ≡ with_schedule (with_stop call (mem_schedule self.old)) self.old }
    {
        self.schedule.stop_at(call);
    }

    /// The bytes of the file at a path; `None` exactly where no file stands there.
    /// Takes no memory.
    pub fn file(&self, path: &TreePath) -> Option<&[u8]>
        ensures { option_map (λ b. b.now) result ≡ map.get (mem_files self.now) path.now }
    {
        match self.files.get(path) {
            Some(bytes) => Some(bytes.as_slice()),
            None => None,
        }
    }

    /// The paths that it was asked to read, in order, but those of calls that failed or lacked
    /// memory. Takes no memory.
    pub fn logged(&self) -> &List<TreePath>
        ensures { result.now ≡ mem_log self.now }
    {
        &self.log
    }

    /// How many writes, renames and removals succeeded. Takes no memory.
    pub fn changed(&self) -> u64
        ensures { result ≡ (mem_state self.now).changes }
    {
        self.changes
    }
}

impl MemTree {
    // Counts a call that is to give so many bytes at most, and tells whether it fails; then the
    // count of faults rises.
    fn fails(&mut self, width: u64) -> bool
        ensures failed { result ≡ is_wrong (turn_of (mem_schedule self.old)) }
        ensures called { self.new ≡ called width self.old }
        ensures counted { Counted result (mem_state self.old).faults (mem_state self.new).faults }
        ensures calm { is_calm (mem_schedule self.old) ≡ true → result ≡ false }
        ensures later { (mem_state self.old).calls ≤ (mem_state self.new).calls }
        ensures tree { IsTree (mem_files self.old) }
    {
        self.files.known();
        self.widest = self.widest.max(width);
        let failed = self.schedule.next_is_wrong();
        if failed {
            self.faults = self.faults.saturating_add(1);
        }
        failed
    }
}

// What is asked of a file.
#[derive(Clone, Copy)]
enum Asked {
    // All its bytes, where they are no more than the limit.
    Whole { limit: u64 },
    // The bytes from a place on, as many as there are up to a number.
    Piece { at: u64, most: u32 },
}

// What a read answers by what stands there.
fn look(
    alloc: Global,
    files: &FileMap,
    path: &TreePath,
    asked: Asked,
) -> Result<List<u8>, Stop<ReadFault>>
    ensures found { SaysAsked path.now asked (read_answer result) (disk_of files.now) }
    ensures small { NoLonger (most_for asked) (read_answer result) }
    ensures tree_ok { is_failed (read_answer result) ≡ false }
{
    let Some(bytes) = files.get(path) else {
        return Err(Stop::Fault(ReadFault::Missing));
    };
    match asked {
        Asked::Whole { limit } => {
            if bytes.len() as u64 > limit {
                return Err(Stop::Fault(ReadFault::TooLarge));
            }
            Ok(bytes.clone()?)
        }
        Asked::Piece { at, most } => {
            let piece = part_of(bytes.as_slice(), at, most);
            Ok(List::from_slice(alloc, piece)?)
        }
    }
}

// The bytes from a place on, as many as there are up to a number.
fn part_of(bytes: &[u8], at: u64, most: u32) -> &[u8]
    ensures { result.now ≡ take most (drop at bytes.now) }
{
    let start = at.min(bytes.len() as u64) as usize;
    let (_, rest) = bytes.split_at(start);
    let (piece, _) = rest.split_at(rest.len().min(most as usize));
    piece
}

// Looks, and notes the path where the answer tells what stands there.
fn look_noted(
    alloc: Global,
    files: &FileMap,
    log: &mut List<TreePath>,
    path: &TreePath,
    asked: Asked,
) -> Result<List<u8>, Stop<ReadFault>>
    ensures found { SaysAsked path.now asked (read_answer result) (disk_of files.now) }
    ensures small { NoLonger (most_for asked) (read_answer result) }
    ensures tree_ok { is_failed (read_answer result) ≡ false }
    ensures noted { log.new ≡ log.old ++ noted path.now (read_answer result) }
{
    let noted = path.clone()?;
    let found = look(alloc, files, path, asked);
    if let Err(Stop::Memory(memory)) = found {
        return Err(Stop::Memory(memory));
    }
    log.push(noted)?;
    found
}

// Puts a copy of the bytes at a path above and below which no file stands.
fn put_file(alloc: Global, files: &mut FileMap, path: &TreePath, bytes: &[u8]) -> Result<(), Memory>
    requires { HasRoomFor path.now files.old }
    ensures ok { OnOk result (files.new ≡ map.insert files.old path.now bytes.now) }
    ensures err { OnErr result (files.new ≡ files.old) }
    ensures tree { IsTree files.new }
{
    files.known();
    let path = path.clone()?;
    let held = List::from_slice(alloc, bytes)?;
    files.put(path, held)?;
    Ok(())
}

// Puts the first half of the bytes there, unless memory runs out.
fn put_half(alloc: Global, files: &mut FileMap, path: &TreePath, bytes: &[u8])
    requires { HasRoomFor path.now files.old }
    ensures half { IsHalfPut path.now bytes.now files.old files.new }
    ensures tree { IsTree files.new }
{
    let (half, _) = bytes.split_at(bytes.len() / 2);
    let _ = put_file(alloc, files, path, half);
}

impl Tree for MemTree {
    ghost state = { mem_state };

    fn kind(&mut self, path: &TreePath) -> Result<Kind, Outage>
        ensures kind { Made (kind_of path.now) (kind_answer result) (mem_state self.old)
            (mem_state self.new) }
        ensures exact { MemCalls (is_failed (kind_answer result)) self.old self.new }
    {
        if self.fails(0) {
            return Err(Outage::Failed);
        }
        Ok(self.files.kind(path))
    }

    fn read(&mut self, path: &TreePath, limit: u64) -> Result<List<u8>, Stop<ReadFault>>
        ensures read { Made (read_of path.now limit) (read_answer result) (mem_state self.old)
            (mem_state self.new) }
        ensures exact { MemCalls (is_failed (read_answer result)) self.old self.new }
    {
        if self.fails(limit) {
            return Err(Stop::Failed);
        }
        let asked = Asked::Whole { limit };
        look_noted(self.alloc, &self.files, &mut self.log, path, asked)
    }

    fn piece(&mut self, path: &TreePath, at: u64, most: u32) -> Result<List<u8>, Stop<ReadFault>>
        ensures read { Made (piece_of path.now at most) (read_answer result) (mem_state self.old)
            (mem_state self.new) }
        ensures exact { MemCalls (is_failed (read_answer result)) self.old self.new }
    {
        if self.fails(most as u64) {
            return Err(Stop::Failed);
        }
        let asked = Asked::Piece { at, most };
        look_noted(self.alloc, &self.files, &mut self.log, path, asked)
    }

    fn list(&mut self, dir: &TreePath) -> Result<List<Listed>, Stop<ListFault>>
        ensures listed { Made (list_of dir.now) (list_answer result) (mem_state self.old)
            (mem_state self.new) }
        ensures parts { IfOk result (All (λ l. IsTrue (is_part l.name))) }
        ensures exact { MemCalls (is_failed (list_answer result)) self.old self.new }
    {
        if self.fails(0) {
            return Err(Stop::Failed);
        }
        self.files.list(self.alloc, dir)
    }

    fn write(&mut self, path: &TreePath, bytes: &[u8]) -> Result<(), Outage>
        requires { OnFiles (CanMake (write_of path.now bytes.now)) (mem_state self.old) }
        ensures written { Made (write_of path.now bytes.now) (write_answer result)
            (mem_state self.old) (mem_state self.new) }
        ensures exact { MemCalls (is_failed (write_answer result)) self.old self.new }
        ensures half { is_failed (write_answer result) ≡ true
            → IsHalfPut path.now bytes.now (mem_files self.old) (mem_files self.new) }
    {
        if self.fails(0) {
            put_half(self.alloc, &mut self.files, path, bytes);
            return Err(Outage::Failed);
        }
        put_file(self.alloc, &mut self.files, path, bytes)?;
        self.changes = self.changes.saturating_add(1);
        Ok(())
    }

    fn rename(&mut self, from: &TreePath, to: &TreePath) -> Result<(), Stop<MoveFault>>
        requires { OnFiles (CanMake (rename_of from.now to.now)) (mem_state self.old) }
        ensures moved { Made (rename_of from.now to.now) (move_answer result)
            (mem_state self.old) (mem_state self.new) }
        ensures exact { MemCalls (is_failed (move_answer result)) self.old self.new }
    {
        if self.fails(0) {
            return Err(Stop::Failed);
        }
        self.files.rename(self.alloc, from, to)?;
        self.changes = self.changes.saturating_add(1);
        Ok(())
    }

    fn remove(&mut self, path: &TreePath) -> Result<(), Stop<RemoveFault>>
        ensures removed { Made (remove_of path.now) (remove_answer result)
            (mem_state self.old) (mem_state self.new) }
        ensures exact { MemCalls (is_failed (remove_answer result)) self.old self.new }
    {
        if self.fails(0) {
            return Err(Stop::Failed);
        }
        self.files.remove(path)?;
        self.changes = self.changes.saturating_add(1);
        Ok(())
    }

    fn faults(&self) -> u64 {
        self.faults
    }
}
