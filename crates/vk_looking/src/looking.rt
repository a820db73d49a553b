//! A look at an entry as a machine: a step makes one call.
ghost use Rattle.std.specs.Prelude.{◌≡◌, IfOk, false};
ghost use Rattle.vk_protocol.specs.Protocols.{ends};
ghost use Rattle.vk_protocol.specs.Runs.{IsAtEnd, NextIs};
ghost use Rattle.vk_look.specs.LookIs.{Wanted};
ghost use Rattle.vk_look.specs.Looks.{damaged, look_of};
ghost use Rattle.vk_looking.specs.LookMachine.{look_means, may_ask, now_means, wanted_view};

use crate::files::read_file;
use crate::left::{FilesLeft, Lines};
use crate::lists::read_list;
use crate::texts::{ask_what_stands, read_text};
use crate::walks::walk_on;
use std::alloc::Global;
use std::mem;
use vk_base::{Limit, List, Memory, Outage, TreePath};
use vk_digest::Digest;
use vk_look::{Harm, Look};
use vk_protocol::Machine;
use vk_tree::Tree;
use vk_walk::Walk;

/// What is looked for.
#[derive(Clone, Copy)]
pub struct LookFor<'a> {
    /// The folder of its entry.
    pub folder: &'a TreePath,
    /// The digest of its text.
    pub digest: &'a Digest,
    /// Its text.
    pub text: &'a [u8],
    /// How many bytes its files may have.
    pub most: u64,
}

/// What a look does next.
#[derive(Drop)]
pub enum LookNow {
    /// It asks what stands at the entry.
    Kind,
    /// It reads the text.
    Text,
    /// It reads the contents list.
    Contents {
        kept: List<u8>,
    },
    /// It walks the entry.
    Walks {
        kept: List<u8>,
        lines: Lines,
        walk: Walk,
    },
    /// It reads a listed file.
    Files {
        kept: List<u8>,
        left: FilesLeft,
    },
    /// It has come to its end.
    Ended(Result<Look, Limit>),
}

/// A look that has come so far.
#[derive(Drop)]
pub struct Looking<'a> {
    alloc: Global,
    wanted: LookFor<'a>,
    at: LookNow,
}

pub(crate) fn damaged(harm: Harm) -> LookNow
    ensures { (w : Wanted) → now_means w result ≡ damaged harm }
{
    LookNow::Ended(Ok(Look::Damaged(harm)))
}

impl LookNow {
    /// Whether it may be to make a call; it has come to its end where not. Takes no memory.
    pub fn asks(&self) -> bool
        ensures state { result ≡ may_ask self.now }
        ensures end { result ≡ false → (w : Wanted) → IsAtEnd (now_means w self.now) }
    {
        match self {
            LookNow::Kind => true,
            LookNow::Text => true,
            LookNow::Contents { .. } => true,
            LookNow::Walks { .. } => true,
            LookNow::Files { .. } => true,
            LookNow::Ended(_) => false,
        }
    }

    /// Makes the call that it is to make, and all that is worked out up to the next one.
    pub fn next<T: Tree>(
        self,
        alloc: Global,
        wanted: &LookFor<'_>,
        tree: &mut T,
    ) -> Result<LookNow, Outage>
        ensures { NextIs (now_means (wanted_view wanted.now) self)
            (now_means (wanted_view wanted.now)) result (T.state tree.old) (T.state tree.new) }
    {
        match self {
            LookNow::Kind => ask_what_stands(wanted, tree),
            LookNow::Text => read_text(alloc, wanted, tree),
            LookNow::Contents { kept } => read_list(alloc, wanted, kept, tree),
            LookNow::Walks { kept, lines, walk } => {
                walk_on(alloc, wanted, kept, lines, walk, tree)
            }
            LookNow::Files { kept, left } => read_file(alloc, wanted, kept, left, tree),
            LookNow::Ended(_) => Err(Outage::Memory(Memory::without_allocation())),
        }
    }
}

impl<'a> Looking<'a> {
    /// A look at its start.
    #[tactic(auto, unfolding(crate::specs::LookMachine::look_means))]
    pub fn new(alloc: Global, wanted: LookFor<'a>) -> Looking<'a>
        ensures { look_means result ≡ look_of (wanted_view wanted.entry) }
    {
        Looking {
            alloc,
            wanted,
            at: LookNow::Kind,
        }
    }
}

impl Machine for Looking<'_> {
    ghost use Rattle.vk_look.specs.Looks.{Looked};
    ghost use Rattle.vk_looking.specs.LookMachine.{look_means};

    ghost Out = { Looked };

    ghost means = { look_means };

    #[tactic(auto, unfolding(crate::specs::LookMachine::look_means))]
    fn asks(&self) -> bool {
        self.at.asks()
    }

    fn step<T: Tree>(&mut self, tree: &mut T) -> Result<(), Outage> {
        let at = mem::replace(&mut self.at, LookNow::Kind);
        let next = at.next(self.alloc, &self.wanted, tree)?;
        drop(mem::replace(&mut self.at, next));
        Ok(())
    }
}

// What a look came to that has come to its end.
#[tactic(auto, unfolding(crate::specs::LookMachine::look_means))]
pub(crate) fn end_of(looking: Looking<'_>) -> Result<Result<Look, Limit>, Memory>
    ensures { IfOk result (λ l. look_means looking.entry ≡ ends l) }
{
    match looking.at {
        LookNow::Ended(looked) => Ok(looked),
        at => {
            drop(at);
            Err(Memory::without_allocation())
        }
    }
}
