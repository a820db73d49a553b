//! What the installers of a case come to in many orders of their calls.

use crate::caches::{entry, names};
use crate::picks::{Picks, Steps};
use crate::starts::Start;
use crate::turns::{Now, failing_turn, is_live, results, turn};
use std::alloc::Global;
use vk_base::{Memory, Text, TreePath};
use vk_row_text::{Reply, cut};
use vk_shared::Making;

// More orders than any row asks for, and more turns than any order has.
const MOST_ORDERS: u64 = 2_000_000;

const MOST_TURNS: u32 = 10_000;

// Which call of which agent fails, counted from 1, and how many it has made; none where it is 0.
#[derive(Clone, Copy)]
struct Failing {
    who: usize,
    call: u64,
    made: u64,
}

// What orders came to, and how many to the same.
#[derive(Drop)]
struct Tally {
    orders: u64,
    lines: Vec<Line>,
}

#[derive(Drop)]
struct Line {
    told: Text,
    count: u64,
}

fn count_live(makings: &[Making]) -> usize {
    let mut live: usize = 0;
    for making in makings {
        if is_live(making) {
            live = live.saturating_add(1);
        }
    }
    live
}

// The place of the one with a number among those that are to make a call.
fn live_at(makings: &[Making], number: usize) -> Option<usize> {
    let mut before: usize = 0;
    for (place, making) in makings.iter().enumerate() {
        if is_live(making) {
            if before == number {
                return Some(place);
            }
            before = before.saturating_add(1);
        }
    }
    None
}

fn one_turn(start: &Start, now: &mut Now, who: usize, failing: &mut Failing, reply: &mut Reply) {
    if who != failing.who {
        turn(start, now, who, reply);
        return;
    }
    failing.made = failing.made.saturating_add(1);
    if failing.made == failing.call {
        failing_turn(start, now, who, reply);
    } else {
        turn(start, now, who, reply);
    }
}

// The next turn; `false` where nobody makes a call.
fn next_turn(
    start: &Start,
    now: &mut Now,
    picks: &mut Picks,
    failing: &mut Failing,
    reply: &mut Reply,
) -> Result<bool, Memory> {
    let live = count_live(now.makings.as_slice());
    if live == 0 {
        return Ok(false);
    }
    let number = picks.pick(live)?;
    if let Some(who) = live_at(now.makings.as_slice(), number) {
        one_turn(start, now, who, failing, reply);
    }
    Ok(true)
}

fn play_out(
    start: &Start,
    now: &mut Now,
    picks: &mut Picks,
    failing: Failing,
    reply: &mut Reply,
) -> Result<(), Memory> {
    let mut failing = failing;
    for _ in 0..MOST_TURNS {
        if !next_turn(start, now, picks, &mut failing, reply)? {
            return Ok(());
        }
    }
    reply.refuse();
    Ok(())
}

fn tell_names(now: &mut Now, cache: &TreePath, folder: &str, reply: &mut Reply) {
    reply.push(", ");
    reply.push(folder);
    let folder = reply.path(folder);
    match cache_folder(reply.alloc(), cache, &folder) {
        Ok(folder) => names(&mut now.tree.mem, &folder, reply),
        Err(memory) => reply.lack(memory),
    }
}

fn cache_folder(alloc: Global, cache: &TreePath, folder: &TreePath) -> Result<TreePath, Memory> {
    match folder.parts_text() {
        "tmp" => cache.child(alloc, "tmp"),
        "damaged" => cache.child(alloc, "damaged"),
        _ => cache.child(alloc, "abi2"),
    }
}

fn tell_agents(start: &Start, now: &mut Now, reply: &mut Reply) {
    for (who, agent) in start.agents.iter().enumerate() {
        if !reply.is_empty() {
            reply.push(", ");
        }
        reply.push(agent.name.as_str());
        reply.push(" ");
        results(start, now, who, reply);
    }
}

fn tell_entries(start: &Start, now: &mut Now, reply: &mut Reply) {
    for item in start.items.iter() {
        reply.push(", ");
        reply.push(item.name.as_str());
        reply.push(" ");
        entry(&mut now.tree.mem, &start.cache, item, reply);
    }
}

// Tells what each agent came to, and what then stands in the cache.
fn tell_outcome(start: &Start, now: &mut Now, reply: &mut Reply) {
    tell_agents(start, now, reply);
    tell_entries(start, now, reply);
    tell_names(now, &start.cache, "tmp", reply);
    tell_names(now, &start.cache, "damaged", reply);
}

impl Tally {
    fn new(alloc: Global) -> Tally {
        Tally {
            orders: 0,
            lines: Vec::new(alloc),
        }
    }

    // Counts an outcome that was there before.
    fn counted(&mut self, told: &Text) -> bool {
        for line in self.lines.iter_mut() {
            if line.told == *told {
                line.count = line.count.saturating_add(1);
                return true;
            }
        }
        false
    }

    fn add(&mut self, told: Text) -> Result<(), Memory> {
        self.orders = self.orders.saturating_add(1);
        if self.counted(&told) {
            drop(told);
            return Ok(());
        }
        self.lines.push(Line { told, count: 1 })?;
        Ok(())
    }

    fn tell(&self, reply: &mut Reply) {
        reply.push_number(self.orders);
        reply.push(" orders");
        for line in self.lines.iter() {
            reply.push("\n");
            reply.push_number(line.count);
            reply.push(": ");
            reply.push(line.told.as_str());
        }
    }
}

// Adds what was told of an order.
fn add_told(tally: &mut Tally, told: Reply, reply: &mut Reply) {
    let added = match told.end() {
        Ok(Some(told)) => tally.add(told),
        Ok(None) => Ok(()),
        Err(lack) => Err(Memory::from(lack)),
    };
    if let Err(memory) = added {
        reply.lack(memory);
    }
}

fn play_now(start: &Start, now: Now, picks: &mut Picks, failing: Failing, told: &mut Reply) {
    let mut now = now;
    match play_out(start, &mut now, picks, failing, told) {
        Ok(()) => tell_outcome(start, &mut now, told),
        Err(memory) => told.lack(memory),
    }
    drop(now);
}

// Plays one order from the beginning, and tells what it comes to.
fn play_one(start: &Start, picks: &mut Picks, failing: Failing, told: &mut Reply) {
    let now = start.begin(told.alloc());
    if let Some(now) = told.needed(now) {
        play_now(start, now, picks, failing, told);
    }
}

fn another(picks: &mut Picks, reply: &mut Reply) -> bool {
    match picks.turn_page() {
        Ok(more) => more,
        Err(memory) => {
            reply.lack(memory);
            false
        }
    }
}

fn play_all(start: &Start, picks: &mut Picks, failing: Failing, most: u64, reply: &mut Reply) {
    let mut tally = Tally::new(reply.alloc());
    for _ in 0..most {
        let mut told = Reply::new(reply.alloc());
        play_one(start, picks, failing, &mut told);
        add_told(&mut tally, told, reply);
        if !another(picks, reply) {
            break;
        }
    }
    tally.tell(reply);
}

const NONE_FAILS: Failing = Failing {
    who: 0,
    call: 0,
    made: 0,
};

// `NAME K`: the K-th call of an agent fails; nothing: none does.
fn failing_of(start: &Start, row: &str, reply: &mut Reply) -> Failing {
    if row.is_empty() {
        return NONE_FAILS;
    }
    let (name, call) = cut(row);
    let call = reply.number(call);
    match start.agent(name) {
        Some(who) => Failing { who, call, made: 0 },
        None => {
            reply.refuse();
            NONE_FAILS
        }
    }
}

/// `orders`, `orders NAME K`: what every order of the calls comes to; the K-th of an agent fails.
pub fn all(start: &Start, row: &str, reply: &mut Reply) {
    let failing = failing_of(start, row, reply);
    let mut picks = Picks::All(Steps::new(reply.alloc()));
    play_all(start, &mut picks, failing, MOST_ORDERS, reply);
    drop(picks);
}

/// `random SEED COUNT`, `random SEED COUNT NAME K`: the same of so many orders at random.
pub fn random(start: &Start, row: &str, reply: &mut Reply) {
    let (seed, row) = cut(row);
    let (count, row) = cut(row);
    let seed = reply.number(seed);
    let count = reply.number(count);
    let failing = failing_of(start, row, reply);
    let mut picks = Picks::Random(seed);
    play_all(start, &mut picks, failing, count, reply);
    drop(picks);
}
