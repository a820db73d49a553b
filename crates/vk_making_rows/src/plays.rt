//! Turns by a list of numbers, in which all that is meant is supplied.
ghost use Rattle.std.specs.Prelude.{◌<◌, IsTrue};
ghost use Rattle.std.specs.List.{All};

use crate::items::meant;
use crate::starts::{Agent, Start};
use crate::tells::tell_stage;
use crate::turns::Now;
use std::alloc::Global;
use vk_base::{List, Memory, Unread};
use vk_entry::Package;
use vk_row_text::{NoRow, Reply, number_of};
use vk_shared::play;

// Whether all numbers are below another one.
fn all_below(numbers: &[u32], most: usize) -> bool
    ensures { IsTrue result → All (λ number. number < most) numbers.now }
{
    numbers.iter().all(|number| (*number as usize) < most)
}

fn numbers_of(alloc: Global, row: &str) -> Result<List<u32>, Unread<NoRow>> {
    let mut numbers = List::new(alloc);
    for word in row.split(' ') {
        numbers.push(number_of(word)?)?;
    }
    Ok(numbers)
}

fn push_package(packages: &mut List<Package>, package: Package, reply: &mut Reply) {
    if let Err(lack) = packages.push(package) {
        reply.lack(Memory::from(lack));
    }
}

// The packages that are meant for an agent's plan.
fn packages_of(start: &Start, agent: &Agent, reply: &mut Reply) -> List<Package> {
    let mut packages = List::new(reply.alloc());
    for place in agent.plan.iter() {
        if let Some(item) = start.items.get(*place) {
            let package = meant(item, reply);
            push_package(&mut packages, package, reply);
        }
    }
    packages
}

fn push_packages(all: &mut Vec<List<Package>>, packages: List<Package>, reply: &mut Reply) {
    if let Err(lack) = all.push(packages) {
        reply.lack(Memory::from(lack));
    }
}

// The packages that are meant for each agent.
fn all_meant(start: &Start, reply: &mut Reply) -> Vec<List<Package>> {
    let mut all = Vec::new(reply.alloc());
    for agent in start.agents.iter() {
        let packages = packages_of(start, agent, reply);
        push_packages(&mut all, packages, reply);
    }
    all
}

fn tell_stages(now: &Now, reply: &mut Reply) {
    for (who, making) in now.makings.iter().enumerate() {
        if who > 0 {
            reply.push(" ");
        }
        tell_stage(making, reply);
    }
}

fn play_order(now: &mut Now, meant: &[List<Package>], order: &[u32], reply: &mut Reply) {
    let alloc = reply.alloc();
    let all = now.makings.as_mut_slice();
    if meant.len() != all.len() || !all_below(order, all.len()) {
        reply.refuse();
        return;
    }
    if let Err(memory) = play(alloc, &mut now.tree, all, meant, order) {
        reply.lack(memory);
    }
}

/// `K ..`: turns of the agents with these numbers, and what each is then to do next.
pub fn answer(start: &Start, now: &mut Now, row: &str, reply: &mut Reply) {
    let order = numbers_of(reply.alloc(), row);
    let Some(order) = reply.needed(order) else {
        return;
    };
    let meant = all_meant(start, reply);
    play_order(now, meant.as_slice(), order.as_slice(), reply);
    drop(meant);
    tell_stages(now, reply);
}
