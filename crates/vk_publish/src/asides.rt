//! The setting aside of an entry, one call after the other.
ghost use Rattle.std.specs.Prelude.{◌≡◌, None, IfOk};
ghost use Rattle.vk_spec.specs.States.{Ends};
ghost use Rattle.vk_spec.specs.Standing.{OnFiles, Stands};
ghost use Rattle.vk_base.specs.Stops.{has_failed};
ghost use Rattle.vk_base.specs.Names.{name_fault, word_rule};
ghost use Rattle.vk_base.specs.declared.limits.Limit.TheVariants as limit;
ghost use Rattle.vk_tree.specs.Answers.{entries_of, list_refusal, move_refusal};
ghost use Rattle.vk_protocol.specs.Asking.{split, reply_by};
ghost use Rattle.vk_protocol.specs.Protocols.{ends, on_ok};
ghost use Rattle.vk_protocol.specs.Runs.{CanAsk, CanRunOn, IsAtEnd, NextIs, Ran};
ghost use Rattle.vk_places.specs.Places.{entry_at};
ghost use Rattle.vk_publish.specs.Names.{free_of};
ghost use Rattle.vk_publish.specs.Outcomes.{AsideKeeps, AsideSays, Between, IsClear};
ghost use Rattle.vk_publish.specs.Aside.{aside_of, moved_by};
ghost use Rattle.vk_publish.specs.AsideMachine.{move_left, aside_left, aside_whole};
ghost use Rattle.vk_publish.specs.declared.asides.AsideNow.TheVariants as next;

use crate::answers::Moved;
use crate::jobs::Target;
use crate::names::{free_number, known};
use std::alloc::Global;
use vk_base::{Limit, List, Memory, Outage, Stop, TreePath};
use vk_digest::Digest;
use vk_places::{damaged_folder, damaged_in, entry_in};
use vk_protocol::{Machine, ask_list, ask_rename, joined, run};
use vk_tree::{ListFault, Listed, MoveFault, Tree};

/// What a setting aside does next.
#[derive(Clone, Copy)]
pub enum AsideNow {
    /// It lists what was set aside.
    Lists,
    /// It moves the entry to the name with this number.
    Moves { number: u32 },
    /// It came to its end.
    Ended(Moved),
    /// A limit was passed.
    Over(Limit),
}

/// A setting aside that has come so far.
#[derive(Clone, Copy)]
pub struct Aside<'a> {
    /// What is set aside.
    pub target: Target<'a>,
    /// What it does next.
    pub at: AsideNow,
}

// Goes on with the number of the least free name.
#[tactic(auto, unfolding(crate::specs::AsideMachine::aside_left))]
fn begun(target: &Target<'_>, reply: Result<List<Listed>, ListFault>) -> Result<AsideNow, Memory>
    ensures { IfOk result (λ at. aside_left target.now at ≡ on_ok (λ n. move_left target.now n)
        (free_of limit.Damaged target.now.agent.now (reply_by entries_of list_refusal reply))) }
{
    match free_number(target.alloc, target.agent, Limit::Damaged, reply)? {
        Ok(number) => Ok(AsideNow::Moves { number }),
        Err(over) => Ok(AsideNow::Over(over)),
    }
}

// Lists what was set aside.
#[tactic(auto, unfolding(crate::specs::Aside::aside_of, crate::specs::AsideMachine::aside_left))]
fn list_names<T: Tree>(target: &Target<'_>, tree: &mut T) -> Result<AsideNow, Outage>
    ensures { NextIs (aside_left target.now next.Lists) (aside_left target.now) result
        (T.state tree.old) (T.state tree.new) }
{
    let folder = damaged_folder(target.alloc, target.cache)?;
    let reply = ask_list(tree, &folder)?;
    Ok(begun(target, reply)?)
}

fn moved(reply: Result<(), MoveFault>) -> Moved
    ensures { result ≡ moved_by (reply_by (λ u. u) move_refusal reply) }
{
    match reply {
        Ok(_) => Moved::Done,
        Err(MoveFault::Missing) => Moved::Gone,
        Err(MoveFault::Exists) => Moved::Taken,
    }
}

// Moves the entry.
#[tactic(auto, unfolding(crate::specs::AsideMachine::aside_left))]
fn move_out<T: Tree>(target: &Target<'_>, number: u32, tree: &mut T) -> Result<AsideNow, Outage>
    requires { OnFiles (CanAsk (aside_left target.now (next.Moves number))) (T.state tree.old) }
    ensures { NextIs (aside_left target.now (next.Moves number)) (aside_left target.now) result
        (T.state tree.old) (T.state tree.new) }
{
    known(target);
    let entry = entry_in(target.alloc, target.cache, target.digest)?;
    let place = damaged_in(target.alloc, target.cache, target.agent, number)?;
    let reply = ask_rename(tree, &entry, &place)?;
    Ok(AsideNow::Ended(moved(reply)))
}

/// Makes the call that comes next. What follows is what is left to do.
#[tactic(auto, unfolding(crate::specs::AsideMachine::aside_left))]
pub fn aside_step<T: Tree>(
    target: &Target<'_>,
    at: AsideNow,
    tree: &mut T,
) -> Result<AsideNow, Outage>
    requires { OnFiles (CanAsk (aside_left target.now at)) (T.state tree.old) }
    ensures { NextIs (aside_left target.now at) (aside_left target.now) result (T.state tree.old)
        (T.state tree.new) }
{
    match at {
        AsideNow::Lists => list_names(target, tree),
        AsideNow::Moves { number } => move_out(target, number, tree),
        AsideNow::Ended(_) => Err(Outage::Memory(Memory::without_allocation())),
        AsideNow::Over(_) => Err(Outage::Memory(Memory::without_allocation())),
    }
}

impl Machine for Aside<'_> {
    ghost use Rattle.std.specs.Prelude.{Result};
    ghost use Rattle.vk_base.specs.declared.limits.Limit.{Limit};
    ghost use Rattle.vk_publish.specs.declared.answers.Moved.{Moved};
    ghost use Rattle.vk_publish.specs.AsideMachine.{aside_means};

    ghost Out = { Result Moved Limit };

    ghost means = { aside_means };

    #[tactic(auto, unfolding(crate::specs::AsideMachine::aside_left))]
    fn asks(&self) -> bool {
        match self.at {
            AsideNow::Lists => true,
            AsideNow::Moves { .. } => true,
            AsideNow::Ended(_) => false,
            AsideNow::Over(_) => false,
        }
    }

    fn step<T: Tree>(&mut self, tree: &mut T) -> Result<(), Outage> {
        self.at = aside_step(&self.target, self.at, tree)?;
        Ok(())
    }
}

// What it came to.
#[tactic(auto, unfolding(crate::specs::Aside::aside_of, crate::specs::AsideMachine::aside_left))]
fn came_to(target: &Target<'_>, at: AsideNow) -> Result<Moved, Limit>
    requires { IsAtEnd (aside_left target.now at) }
    ensures { aside_left target.now at ≡ ends result }
{
    match at {
        AsideNow::Ended(moved) => Ok(moved),
        AsideNow::Over(over) => Err(over),
        AsideNow::Lists => unreachable!(),
        AsideNow::Moves { .. } => unreachable!(),
    }
}

// Makes all calls of a setting aside.
fn aside_target<T: Tree>(target: Target<'_>, tree: &mut T) -> Result<Result<Moved, Limit>, Outage>
    requires { CanRunOn (aside_whole target) (T.state tree.old) }
    ensures { Ran (aside_whole target.entry) result (T.state tree.old) (T.state tree.new) }
{
    let mut aside = Aside {
        target,
        at: AsideNow::Lists,
    };
    run(&mut aside, tree)?;
    Ok(came_to(&aside.target, aside.at))
}

/// Sets an entry aside: one rename moves it to the least free name of the agent's in `damaged`.
/// Something has to stand at the entry, where the tree tells its files; `Gone` and `Taken` never
/// come then. `Entries` exactly where `damaged` has too many entries to list, and else `Damaged`
/// where all names of the agent's are taken there; nothing was changed then. `Failed` only where the
/// tree's count of faults may have increased. Wherever it stops, the entry is as it was, or stands
/// whole at that name, and all else stays.
pub fn set_aside<'a, T: Tree>(
    alloc: Global,
    tree: &mut T,
    cache: &'a TreePath,
    agent: &'a str,
    digest: &'a Digest,
) -> Result<Moved, Stop<Limit>>
    requires named { name_fault word_rule agent.now ≡ None }
    requires clear { OnFiles (IsClear cache.now) (T.state tree.old) }
    requires stands { OnFiles (λ d. Stands d (entry_at cache.now digest.now.bytes))
        (T.state tree.old) }
    ensures ran { Ran (aside_of cache.now agent.now digest.now.bytes) (split result)
        (T.state tree.old) (T.state tree.new) }
    ensures counts { Ends (has_failed result) (T.state tree.old) (T.state tree.new) }
    ensures keeps { Between (AsideKeeps cache.now agent.now digest.now.bytes) (T.state tree.old)
        (T.state tree.new) }
    ensures says { Between (λ f g. IfOk (split result)
        (λ x. AsideSays cache.now agent.now digest.now.bytes x f g)) (T.state tree.old)
        (T.state tree.new) }
{
    let target = Target {
        alloc,
        cache,
        agent,
        digest,
    };
    joined(aside_target(target, tree))
}
