//! A gathering as a machine: a step makes one call.
ghost use Rattle.std.specs.Prelude.{◌≡◌, ℕ, false};
ghost use Rattle.vk_spec.specs.Paths.{Path};
ghost use Rattle.vk_protocol.specs.Protocols.{ends};
ghost use Rattle.vk_protocol.specs.Runs.{IsAtEnd, NextIs};
ghost use Rattle.vk_gather.specs.Gathers.{gather_of};
ghost use Rattle.vk_gather.specs.GatherMachine.{gather_means, may_ask, now_means};

use crate::files::read_file;
use crate::left::FilesLeft;
use crate::walked::{end_of, walk_first, walk_on};
use std::alloc::Global;
use std::mem;
use vk_base::{Limit, Memory, Outage, TreePath};
use vk_entry::Package;
use vk_protocol::Machine;
use vk_tree::Tree;
use vk_walk::Walk;

// What a gathering does next.
#[derive(Drop)]
pub(crate) enum GatherNow {
    // It begins to walk its folder.
    Start,
    // It walks its folder.
    Walks(Walk),
    // It reads a file.
    Files(FilesLeft),
    // It has come to its end.
    Ended(Result<Package, Limit>),
}

/// A gathering that has come so far.
#[derive(Drop)]
pub struct Gathering {
    alloc: Global,
    folder: TreePath,
    most: u64,
    at: GatherNow,
}

impl GatherNow {
    // Whether it may be to make a call; it has come to its end where not.
    fn asks(&self) -> bool
        ensures state { result ≡ may_ask self.now }
        ensures end { result ≡ false → (most : ℕ) (folder : Path)
            → IsAtEnd (now_means most folder self.now) }
    {
        match self {
            GatherNow::Start => true,
            GatherNow::Walks(_) => true,
            GatherNow::Files(_) => true,
            GatherNow::Ended(_) => false,
        }
    }

    // Makes the call that it is to make, and all that is worked out up to the next one.
    fn next<T: Tree>(
        self,
        alloc: Global,
        folder: &TreePath,
        most: u64,
        tree: &mut T,
    ) -> Result<GatherNow, Outage>
        ensures { NextIs (now_means most folder.now self) (now_means most folder.now) result
            (T.state tree.old) (T.state tree.new) }
    {
        match self {
            GatherNow::Start => walk_first(alloc, folder, most, tree),
            GatherNow::Walks(walk) => walk_on(alloc, folder, most, walk, tree),
            GatherNow::Files(left) => read_file(alloc, folder, most, left, tree),
            GatherNow::Ended(_) => Err(Outage::Memory(Memory::without_allocation())),
        }
    }
}

impl Gathering {
    /// The gathering of a folder, whose files may have so many bytes together.
    #[tactic(auto, unfolding(crate::specs::GatherMachine::gather_means))]
    pub fn new(alloc: Global, folder: TreePath, most: u64) -> Gathering
        ensures { gather_means result ≡ gather_of most folder }
    {
        Gathering {
            alloc,
            folder,
            most,
            at: GatherNow::Start,
        }
    }
}

impl Machine for Gathering {
    ghost use Rattle.std.specs.Prelude.{Result, List};
    ghost use Rattle.vk_base.specs.declared.limits.Limit.{Limit};
    ghost use Rattle.vk_entry.specs.Packages.{File};
    ghost use Rattle.vk_gather.specs.GatherMachine.{gather_means};

    ghost Out = { Result (List File) Limit };

    ghost means = { gather_means };

    #[tactic(auto, unfolding(crate::specs::GatherMachine::gather_means))]
    fn asks(&self) -> bool {
        self.at.asks()
    }

    fn step<T: Tree>(&mut self, tree: &mut T) -> Result<(), Outage> {
        let at = mem::replace(&mut self.at, GatherNow::Start);
        let next = at.next(self.alloc, &self.folder, self.most, tree)?;
        drop(mem::replace(&mut self.at, next));
        Ok(())
    }
}

/// What it came to: the files in the order of the texts of their paths, as a package, or the limit
/// that was passed.
pub fn gathered_by(gathering: Gathering) -> Result<Package, Limit>
    requires { IsAtEnd (gather_means gathering) }
    ensures { gather_means gathering ≡ ends result }
{
    let Gathering {
        alloc,
        folder,
        most: _,
        at,
    } = gathering;
    drop(folder);
    match at {
        GatherNow::Start => Ok(Package::new(alloc)),
        GatherNow::Walks(walk) => end_of(alloc, walk),
        GatherNow::Files(left) => {
            drop(left);
            Ok(Package::new(alloc))
        }
        GatherNow::Ended(result) => result,
    }
}
