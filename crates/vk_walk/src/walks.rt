//! A walk as a machine: a step makes one call.
ghost use Rattle.std.specs.Prelude.{◌≡◌, IfOk, OnOk, IsTrue};
ghost use Rattle.std.specs.List.{All};
ghost use Rattle.vk_spec.specs.Standing.{OnFiles};
ghost use Rattle.vk_spec.specs.Calls.{list_of};
ghost use Rattle.vk_base.specs.Paths.{is_part};
ghost use Rattle.vk_tree.specs.Answers.{entries_of};
ghost use Rattle.vk_tree.specs.Trees.{IsTreeDisk};
ghost use Rattle.vk_protocol.specs.Protocols.{ends};
ghost use Rattle.vk_protocol.specs.Runs.{Asked, IsAtEnd, NextIs};
ghost use Rattle.vk_walk.specs.Walked.{walk_limits};
ghost use Rattle.vk_walk.specs.WalkProtocol.{listed, walk_of};
ghost use Rattle.vk_walk.specs.WalkMachine.{Comes, Entered, IsFresh, after_list, found_view};
ghost use Rattle.vk_walk.specs.WalkMachine.{listed_view, now_means, walk_later, walk_means, walk_todo};

use std::alloc::Global;
use std::mem;
use vk_base::{List, Memory, Outage, Stop, TreePath};
use vk_protocol::Machine;
use vk_tree::{ListFault, Listed, Tree};

// The most files below a folder that is walked.
const MOST_FILES: usize = 1_000_000;

// The most levels of folders below one that is walked.
const MOST_LEVELS: u32 = 64;

/// A limit that a walk passes.
#[derive(Clone, Copy, Debug, PartialEq, Eq)]
pub enum WalkLimit {
    /// A folder lies more than 64 levels below the one that is walked.
    Deep,
    /// A folder has more than 100,000 entries.
    Entries,
    /// There are more than 1,000,000 files.
    Files,
}

// What a walk comes to later: a file, or a folder in which so many levels of folders may stand, its
// own among them.
#[derive(Drop)]
struct Pending {
    path: TreePath,
    folder: bool,
    left: u32,
}

// What a walk does next.
#[derive(Drop)]
enum WalkNow {
    // It lists a folder, below which so many levels may stand.
    Lists { path: TreePath, left: u32 },
    // Nothing: all is walked.
    Done,
    // Nothing: a limit is passed.
    Over(WalkLimit),
}

/// A walk of a folder that has come so far. What it has still to do takes as much memory as the
/// paths of all entries of the folders that it is in.
#[derive(Drop)]
pub struct Walk {
    alloc: Global,
    files: usize,
    // What comes later, the next one last.
    todo: List<Pending>,
    found: List<TreePath>,
    at: WalkNow,
}

impl Walk {
    /// A walk of a folder.
    pub fn new(alloc: Global, folder: TreePath) -> Walk
        ensures { walk_means result ≡ walk_of walk_limits folder }
    {
        fresh(
            alloc,
            WalkNow::Lists {
                path: folder,
                left: MOST_LEVELS,
            },
        )
    }

    // A walk of which the first step was made. No memory is asked for before its call.
    pub(crate) fn begin<T: Tree>(
        alloc: Global,
        tree: &mut T,
        folder: &TreePath,
    ) -> Result<Walk, Outage>
        ensures next { NextIs (walk_of walk_limits folder.now) walk_means result
            (T.state tree.old) (T.state tree.new) }
        ensures tree { OnFiles IsTreeDisk (T.state tree.old) }
    {
        let reply = list(alloc, tree, folder)?;
        let mut walk = fresh(alloc, WalkNow::Done);
        walk.at = enter(&mut walk, folder, MOST_LEVELS, reply)?;
        Ok(walk)
    }
}

impl Machine for Walk {
    ghost use Rattle.vk_spec.specs.Paths.{Path};
    ghost use Rattle.std.specs.Prelude.{Result, List};
    ghost use Rattle.vk_walk.specs.Walks.{Limit};
    ghost use Rattle.vk_walk.specs.WalkMachine.{walk_means};

    ghost Out = { Result (List Path) Limit };

    ghost means = { walk_means };

    #[tactic(auto, unfolding(crate::specs::WalkMachine::walk_means))]
    fn asks(&self) -> bool {
        match &self.at {
            WalkNow::Lists { .. } => true,
            WalkNow::Done => false,
            WalkNow::Over(_) => false,
        }
    }

    fn step<T: Tree>(&mut self, tree: &mut T) -> Result<(), Outage> {
        match mem::replace(&mut self.at, WalkNow::Done) {
            WalkNow::Lists { path, left } => {
                let reply = list(self.alloc, tree, &path)?;
                self.at = enter(self, &path, left, reply)?;
                Ok(())
            }
            WalkNow::Done => Err(Outage::Memory(Memory::without_allocation())),
            WalkNow::Over(_) => Err(Outage::Memory(Memory::without_allocation())),
        }
    }
}

/// What a walk has found that came to its end: the files below the folder, in the order of their
/// paths, or the limit that is passed.
#[tactic(auto, unfolding(crate::specs::WalkMachine::walk_means))]
pub fn found_by(walk: Walk) -> Result<List<TreePath>, WalkLimit>
    requires { IsAtEnd (walk_means walk) }
    ensures { walk_means walk ≡ ends (found_view result) }
{
    match walk.at {
        WalkNow::Lists { .. } => Ok(walk.found),
        WalkNow::Done => Ok(walk.found),
        WalkNow::Over(limit) => Err(limit),
    }
}

// A walk that has found nothing yet, with nothing pending.
fn fresh(alloc: Global, at: WalkNow) -> Walk
    ensures { IsFresh walk_limits at result }
{
    Walk {
        alloc,
        files: MOST_FILES,
        todo: List::new(alloc),
        found: List::new(alloc),
        at,
    }
}

// Lists a folder; one that isn't there has no entries.
fn list<T: Tree>(
    alloc: Global,
    tree: &mut T,
    path: &TreePath,
) -> Result<Result<List<Listed>, WalkLimit>, Outage>
    ensures asked { Asked (list_of path.now) (λ reply r. listed_view r ≡ listed reply) result
        (T.state tree.old) (T.state tree.new) }
    ensures parts { IfOk result (λ r. IfOk r (All (λ l. IsTrue (is_part l.name)))) }
    ensures tree { OnFiles IsTreeDisk (T.state tree.old) }
{
    match tree.list(path) {
        Ok(entries) => Ok(Ok(entries)),
        Err(Stop::Fault(ListFault::Missing)) => Ok(Ok(List::new(alloc))),
        Err(Stop::Fault(ListFault::Many)) => Ok(Err(WalkLimit::Entries)),
        Err(Stop::Failed) => Err(Outage::Failed),
        Err(Stop::Memory(memory)) => Err(Outage::Memory(memory)),
    }
}

// Goes on with the entries of a folder.
fn enter(
    walk: &mut Walk,
    path: &TreePath,
    left: u32,
    reply: Result<List<Listed>, WalkLimit>,
) -> Result<WalkNow, Memory>
    requires { IfOk reply (All (λ l. IsTrue (is_part l.name))) }
    ensures { IfOk result (λ at. now_means walk.new.files at walk.new.found walk.new.todo
        ≡ after_list walk.old.files path.now left walk.old.found walk.old.todo
        (listed_view reply)) }
{
    match reply {
        Ok(entries) => {
            put_entries(walk.alloc, path, left, entries, &mut walk.todo)?;
            settle(walk.files, &mut walk.todo, &mut walk.found)
        }
        Err(limit) => Ok(WalkNow::Over(limit)),
    }
}

// Puts the entries of a folder before what comes later.
fn put_entries(
    alloc: Global,
    path: &TreePath,
    left: u32,
    entries: List<Listed>,
    todo: &mut List<Pending>,
) -> Result<(), Memory>
    requires { All (λ l. IsTrue (is_part l.name)) entries }
    ensures { OnOk result (Entered path.now left (entries_of entries) todo.old todo.new) }
{
    let mut entries = entries.into_vec();
    while let Some(entry) = entries.pop() {
        let path = path.child(alloc, entry.name.as_str())?;
        todo.push(Pending {
            path,
            folder: entry.folder,
            left,
        })?;
    }
    Ok(())
}

// Comes to what comes later, up to the next folder or a limit.
fn settle(
    files: usize,
    todo: &mut List<Pending>,
    found: &mut List<TreePath>,
) -> Result<WalkNow, Memory>
    ensures { IfOk result (λ at. now_means files at found.new todo.new
        ≡ walk_todo files todo.old found.old) }
{
    while let Some(next) = todo.pop() {
        match come(files, next, found)? {
            None => {}
            Some(at) => return Ok(at),
        }
    }
    Ok(WalkNow::Done)
}

// Comes to something: a folder is to be listed, and a file is found, unless a limit is passed.
// `None` where it is found.
fn come(files: usize, next: Pending, found: &mut List<TreePath>) -> Result<Option<WalkNow>, Memory>
    ensures { IfOk result (λ at. Comes files at found.new (walk_later files next found.old)) }
{
    if next.folder {
        if next.left == 0 {
            return Ok(Some(WalkNow::Over(WalkLimit::Deep)));
        }
        return Ok(Some(WalkNow::Lists {
            path: next.path,
            left: next.left - 1,
        }));
    }
    if found.len() >= files {
        return Ok(Some(WalkNow::Over(WalkLimit::Files)));
    }
    found.push(next.path)?;
    Ok(None)
}
