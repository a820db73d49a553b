//! The turns of installers, and what each comes to.

use crate::items::supply_or_refuse;
use crate::quiet_trees::QuietTree;
use crate::starts::Start;
use crate::tells::{tell_items, tell_stage, tell_stop};
use std::mem;
use vk_base::{List, Memory};
use vk_make::MakeItems;
use vk_row_text::Reply;
use vk_shared::{Making, Stage};

/// How far a case has come: the files, and the making of each agent.
#[derive(Drop)]
pub struct Now {
    /// The files.
    pub tree: QuietTree,
    /// The makings, in the order of the agents.
    pub makings: Vec<Making>,
}

// More turns than any row takes.
const MOST_TURNS: u32 = 100_000;

/// Whether a making is to make a call.
pub fn is_live(making: &Making) -> bool {
    making.state() == Stage::Calls
}

/// Makes a call, where one is to be made.
pub fn step(making: &mut Making, tree: &mut QuietTree) {
    if let Stage::Calls = making.state() {
        let _ = making.step(tree);
    }
}

/// The place of the item that waits.
pub fn waiting(making: &Making) -> Option<usize> {
    match making.state() {
        Stage::Builds(place) => Some(place as usize),
        _ => None,
    }
}

fn supply_waiting(start: &Start, who: usize, making: &mut Making, reply: &mut Reply) {
    if let Some(place) = waiting(making)
        && let Some(item) = start.planned(who, place)
    {
        supply_or_refuse(making, item, reply);
    }
}

/// Makes a call of an agent, where it is to make one, and supplies what is meant for an item that
/// then waits.
pub fn turn(start: &Start, now: &mut Now, who: usize, reply: &mut Reply) {
    let Some(making) = now.makings.get_mut(who) else {
        reply.refuse();
        return;
    };
    step(making, &mut now.tree);
    supply_waiting(start, who, making, reply);
}

/// The same, with a call that fails.
pub fn failing_turn(start: &Start, now: &mut Now, who: usize, reply: &mut Reply) {
    now.tree.fail();
    turn(start, now, who, reply);
    now.tree.go_well();
}

fn is_live_at(now: &Now, who: usize) -> bool {
    match now.makings.get(who) {
        Some(making) => is_live(making),
        None => false,
    }
}

/// Takes turns until an agent makes no more calls, and answers how many it made.
pub fn finish(start: &Start, now: &mut Now, who: usize, reply: &mut Reply) -> u64 {
    let mut turns: u64 = 0;
    for _ in 0..MOST_TURNS {
        if !is_live_at(now, who) {
            return turns;
        }
        turn(start, now, who, reply);
        turns = turns.saturating_add(1);
    }
    reply.refuse();
    turns
}

/// Tells what an agent is to do next.
pub fn stage(now: &Now, who: usize, reply: &mut Reply) {
    match now.makings.get(who) {
        Some(making) => tell_stage(making, reply),
        None => reply.refuse(),
    }
}

fn tell_and_drop(items: MakeItems, reply: &mut Reply) {
    tell_items(&items, reply);
    drop(items);
}

// Tells what a making came to.
fn tell_results(making: Making, reply: &mut Reply) {
    if let Stage::Done = making.state() {
        tell_and_drop(making.results(), reply);
        return;
    }
    match making.end() {
        Some(stop) => tell_stop(stop, reply),
        None => reply.push("not ended"),
    }
    drop(making);
}

// A making of no packages in the place of another one, which is answered.
fn take_making(start: &Start, now: &mut Now, who: usize) -> Result<Option<Making>, Memory> {
    let Some(agent) = start.agents.get(who) else {
        return Ok(None);
    };
    let alloc = now.tree.alloc();
    let none = Making::new(alloc, &start.cache, &agent.name, List::new(alloc), 0)?;
    match now.makings.get_mut(who) {
        Some(making) => Ok(Some(mem::replace(making, none))),
        None => {
            drop(none);
            Ok(None)
        }
    }
}

/// Tells what an agent came to. Nothing is left of it.
pub fn results(start: &Start, now: &mut Now, who: usize, reply: &mut Reply) {
    match take_making(start, now, who) {
        Ok(Some(making)) => tell_results(making, reply),
        Ok(None) => reply.refuse(),
        Err(memory) => reply.lack(memory),
    }
}
