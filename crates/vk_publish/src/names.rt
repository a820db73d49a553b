//! The least number of an agent's folder that isn't taken.
ghost use Rattle.std.specs.Prelude.{◌≡◌, ◌≤◌, IfOk, IfSome, is_some, length};
ghost use Rattle.std.specs.List.{position};
ghost use Rattle.std.specs.Str.{bytes_eq};
ghost use Rattle.vk_base.specs.Names.{IsName, word_rule};
ghost use Rattle.vk_tree.specs.Answers.{entries_of, list_refusal};
ghost use Rattle.vk_protocol.specs.Asking.{reply_by};
ghost use Rattle.vk_publish.specs.Names.{names_most, is_taken, least_from, least_free, free_of};
ghost use Rattle.vk_publish.specs.Names.{picked};

use crate::jobs::Target;
use std::alloc::Global;
use vk_base::{Limit, List, Memory};
use vk_places::agent_folder;
use vk_tree::{ListFault, Listed};

const MOST_NAMES: u32 = 10_000;

#[tactic(auto, unfolding(crate::specs::Names::names_most))]
fn most_names() -> u32
    ensures { result ≡ names_most }
{
    MOST_NAMES
}

fn is_named(listed: &Listed, name: &str) -> bool
    ensures { result ≡ bytes_eq listed.now.name name.now }
{
    listed.name.as_str() == name
}

// The place of the first entry with this name.
fn place_of(listed: &[Listed], name: &str) -> Option<usize>
    ensures { result ≡ position (λ l. bytes_eq l.name name.now) listed.now }
{
    listed.iter().position(|one| is_named(one, name))
}

// The place behind an entry with this name: one of those from a place on, or else one before it. So
// names that stand in order are found by one walk.
fn place_behind(listed: &[Listed], from: usize, name: &str) -> Option<usize>
    requires { from ≤ length listed.now }
    ensures taken { is_some result ≡ is_taken (entries_of listed.now) name.now }
    ensures within { IfSome result (λ place. place ≤ length listed.now) }
{
    let (before, after) = listed.split_at(from);
    match place_of(after, name) {
        Some(place) => Some(from + place + 1),
        None => place_of(before, name).map(|place| place + 1),
    }
}

// The first of so many numbers whose name isn't listed.
fn least_of(alloc: Global, agent: &str, listed: &[Listed], most: u32) -> Result<Option<u32>, Memory>
    ensures { IfOk result (λ n. n ≡ least_from agent.now (entries_of listed.now) most 0) }
{
    let mut behind = 0;
    for number in 0..most {
        let name = agent_folder(alloc, agent, number)?;
        match place_behind(listed, behind, name.as_str()) {
            Some(place) => behind = place,
            None => return Ok(Some(number)),
        }
    }
    Ok(None)
}

// The first number whose name isn't listed, or this limit.
fn least_free(
    alloc: Global,
    agent: &str,
    full: Limit,
    listed: &[Listed],
) -> Result<Result<u32, Limit>, Memory>
    ensures { IfOk result (λ r. r ≡ picked full (least_free agent.now (entries_of listed.now))) }
{
    match least_of(alloc, agent, listed, most_names())? {
        Some(number) => Ok(Ok(number)),
        None => Ok(Err(full)),
    }
}

/// The number of an agent's new folder, by what was listed of those that there are: the least that
/// isn't taken. Where all are taken it is this limit, and that of entries where there are too many
/// to list.
pub(crate) fn free_number(
    alloc: Global,
    agent: &str,
    full: Limit,
    reply: Result<List<Listed>, ListFault>,
) -> Result<Result<u32, Limit>, Memory>
    ensures { IfOk result (λ r. r
        ≡ free_of full agent.now (reply_by entries_of list_refusal reply)) }
{
    match reply {
        Ok(listed) => least_free(alloc, agent, full, listed.as_slice()),
        Err(ListFault::Missing) => least_free(alloc, agent, full, &[]),
        Err(ListFault::Many) => Ok(Err(Limit::Entries)),
    }
}

/// Tells a caller that the agent's name has no fault.
pub(crate) fn known(target: &Target<'_>)
    ensures { IsName word_rule target.now.agent.now }
{
    let _ = target;
}
