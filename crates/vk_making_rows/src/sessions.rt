//! The rows, each a question and its words. What a case begins with:
//! - `group TITLE`, `case TITLE`: nothing;
//! - `file PATH BYTES`: a file; `fill FRONT N`: so many empty ones, from `FRONT-0000` on;
//! - `item NAME TEXT FOLDER WORD ..`: an item that plans may have, as `items` reads it;
//! - `agent NAME MOST ITEM ..`: an installer, how many bytes its packages may have, and its plan.
//!
//! What is done, and told of it:
//! - `turn NAME`, `turn NAME N`: turns of an agent, in each of which it makes a call, and is then
//!   supplied what is meant; what it is to do next;
//! - `fail NAME`: a turn whose call fails;
//! - `finish NAME`: turns to its end, and how many calls it made;
//! - `step NAME`, `folder NAME`, `package NAME K`, `supply NAME`, `refuse NAME`: a call, what is seen
//!   where an item waits, and its package;
//! - `results NAME`: what it came to;
//! - `play K ..`: turns of the agents with these numbers, counted from 0;
//! - `calls`: the calls of late; `files FOLDER`, `names FOLDER`, `count FOLDER`: what stands there;
//! - `entry NAME`: what a look at the entry of an item finds;
//! - `orders ..`, `random ..`: what many orders of all calls come to, as `orders` has them.

use crate::items::{refuse, supply};
use crate::starts::Start;
use crate::tells::{tell_package, tell_stage};
use crate::turns::{Now, failing_turn, finish, results, stage, step, turn, waiting};
use crate::{caches, orders, plays};
use std::alloc::Global;
use std::mem::replace;
use vk_base::Memory;
use vk_row_text::{Answering, Reply, cut};
use vk_shared::{Making, Stage};

/// What a case begins with, and how far it has come, where a call was asked for.
#[derive(Drop)]
pub struct Session {
    start: Start,
    now: Option<Now>,
}

fn tell_turn(start: &Start, now: &mut Now, who: usize, count: &str, reply: &mut Reply) {
    let count: u32 = if count.is_empty() {
        1
    } else {
        reply.number(count)
    };
    for _ in 0..count {
        turn(start, now, who, reply);
    }
    stage(now, who, reply);
}

fn tell_finish(start: &Start, now: &mut Now, who: usize, reply: &mut Reply) {
    let turns = finish(start, now, who, reply);
    stage(now, who, reply);
    reply.push(" after ");
    reply.push_number(turns);
}

fn tell_folder(making: &Making, reply: &mut Reply) {
    match making.state() {
        Stage::Builds(_) => {
            reply.push("folder");
            tell_package(making.folder(), reply);
        }
        _ => reply.refuse(),
    }
}

fn tell_made(making: &Making, item: &str, reply: &mut Reply) {
    let item: u32 = reply.number(item);
    match making.state() {
        Stage::Builds(place) if item < place => {
            reply.push("package");
            tell_package(making.made_package(item), reply);
        }
        _ => reply.refuse(),
    }
}

fn supply_next(start: &Start, making: &mut Making, who: usize, reply: &mut Reply) {
    if let Some(place) = waiting(making)
        && let Some(item) = start.planned(who, place)
    {
        supply(making, item, reply);
    } else {
        reply.refuse();
    }
    tell_stage(making, reply);
}

fn refuse_next(making: &mut Making, reply: &mut Reply) {
    refuse(making, reply);
    tell_stage(making, reply);
}

// What is asked of a making where its tree isn't needed.
fn of_making(
    start: &Start,
    making: &mut Making,
    who: usize,
    question: &str,
    rest: &str,
    reply: &mut Reply,
) {
    match question {
        "folder" => tell_folder(making, reply),
        "package" => tell_made(making, rest, reply),
        "supply" => supply_next(start, making, who, reply),
        "refuse" => refuse_next(making, reply),
        _ => reply.refuse(),
    }
}

fn tell_step(now: &mut Now, who: usize, reply: &mut Reply) {
    match now.makings.get_mut(who) {
        Some(making) => {
            step(making, &mut now.tree);
            tell_stage(making, reply);
        }
        None => reply.refuse(),
    }
}

fn of_agent(
    start: &Start,
    now: &mut Now,
    who: usize,
    question: &str,
    rest: &str,
    reply: &mut Reply,
) {
    match question {
        "turn" => tell_turn(start, now, who, rest, reply),
        "finish" => tell_finish(start, now, who, reply),
        "step" => tell_step(now, who, reply),
        "results" => results(start, now, who, reply),
        "fail" => {
            failing_turn(start, now, who, reply);
            stage(now, who, reply);
        }
        _ => match now.makings.get_mut(who) {
            Some(making) => of_making(start, making, who, question, rest, reply),
            None => reply.refuse(),
        },
    }
}

fn tell_calls(now: &mut Now, reply: &mut Reply) {
    match now.tree.take_notes().end() {
        Ok(Some(calls)) if calls.is_empty() => reply.push("none"),
        Ok(Some(calls)) => reply.push(calls.as_str()),
        Ok(None) => reply.refuse(),
        Err(lack) => reply.lack(Memory::from(lack)),
    }
}

fn tell_entry(start: &Start, now: &mut Now, name: &str, reply: &mut Reply) {
    match start.item(name).and_then(|place| start.items.get(place)) {
        Some(item) => caches::entry(&mut now.tree.mem, &start.cache, item, reply),
        None => reply.refuse(),
    }
}

fn tell_folders(now: &mut Now, question: &str, row: &str, reply: &mut Reply) {
    let folder = reply.path(row);
    match question {
        "files" => caches::files(&mut now.tree.mem, &folder, reply),
        "count" => caches::count(&mut now.tree.mem, &folder, reply),
        _ => {
            reply.push("names");
            caches::names(&mut now.tree.mem, &folder, reply);
        }
    }
}

fn ask_agent(start: &Start, now: &mut Now, question: &str, row: &str, reply: &mut Reply) {
    let (name, rest) = cut(row);
    match start.agent(name) {
        Some(who) => of_agent(start, now, who, question, rest, reply),
        None => reply.refuse(),
    }
}

fn ask(start: &Start, now: &mut Now, question: &str, row: &str, reply: &mut Reply) {
    match question {
        "calls" => tell_calls(now, reply),
        "entry" => tell_entry(start, now, row, reply),
        "play" => plays::answer(start, now, row, reply),
        "files" | "names" | "count" => tell_folders(now, question, row, reply),
        _ => ask_agent(start, now, question, row, reply),
    }
}

impl Session {
    /// Nothing.
    pub fn new(alloc: Global) -> Result<Session, Memory> {
        Ok(Session {
            start: Start::new(alloc)?,
            now: None,
        })
    }

    fn restart(&mut self, reply: &mut Reply) {
        reply.silence();
        match Start::new(reply.alloc()) {
            Ok(start) => {
                drop(replace(&mut self.start, start));
                drop(self.now.take());
            }
            Err(memory) => reply.lack(memory),
        }
    }

    // Begins, where it wasn't done yet.
    fn begin(&mut self, reply: &mut Reply) {
        if self.now.is_none() {
            let now = self.start.begin(reply.alloc());
            drop(replace(&mut self.now, reply.needed(now)));
        }
    }

    fn set(&mut self, what: &str, row: &str, reply: &mut Reply) {
        if self.now.is_some() {
            reply.refuse();
        }
        self.start.set(what, row, reply);
    }

    fn go_on(&mut self, question: &str, row: &str, reply: &mut Reply) {
        self.begin(reply);
        match &mut self.now {
            Some(now) => ask(&self.start, now, question, row, reply),
            None => reply.refuse(),
        }
    }
}

impl Answering for Session {
    fn answer(&mut self, row: &str, reply: &mut Reply) {
        let (question, rest) = cut(row);
        match question {
            "group" | "case" => self.restart(reply),
            "file" | "fill" | "item" | "agent" => self.set(question, rest, reply),
            "orders" => orders::all(&self.start, rest, reply),
            "random" => orders::random(&self.start, rest, reply),
            _ => self.go_on(question, rest, reply),
        }
    }
}
