//! The folders of an agent in a cache.
ghost use Rattle.std.specs.Prelude.{◌≡◌, ◌++◌, ◌∷◌, [], IfOk, string_bytes};
ghost use Rattle.vk_base.specs.Names.{IsName, word_rule};
ghost use Rattle.vk_places.specs.Places.{agent_name, tmp_at, damaged_at, tmp_of, damaged_of};

use std::alloc::Global;
use vk_base::{Memory, TreePath};

/// The name of an agent's folder: the agent's name, `-` and the last four digits of a number.
pub fn agent_folder(alloc: Global, agent: &str, number: u32) -> Result<String, Memory>
    ensures { IfOk result (λ t. string_bytes t ≡ agent_name agent.now number) }
{
    let a = number / 1000 % 10;
    let b = number / 100 % 10;
    let c = number / 10 % 10;
    let d = number % 10;
    Ok(format!(in alloc; "{agent}-{a}{b}{c}{d}")?)
}

/// Where a cache has the folders in which packages are made.
pub fn tmp_folder(alloc: Global, cache: &TreePath) -> Result<TreePath, Memory>
    ensures { IfOk result (λ p. p ≡ tmp_of cache.now) }
{
    cache.child(alloc, "tmp")
}

/// Where a cache has the damaged packages that were set aside.
pub fn damaged_folder(alloc: Global, cache: &TreePath) -> Result<TreePath, Memory>
    ensures { IfOk result (λ p. p ≡ damaged_of cache.now) }
{
    cache.child(alloc, "damaged")
}

// A folder of an agent, by its number, in one of these two.
fn agent_in(alloc: Global, folder: &TreePath, agent: &str, number: u32) -> Result<TreePath, Memory>
    requires { IsName word_rule agent.now }
    ensures { IfOk result (λ p. p ≡ folder.now ++ agent_name agent.now number ∷ []) }
{
    let name = agent_folder(alloc, agent, number)?;
    folder.child(alloc, name.as_str())
}

/// Where an agent makes a package, by the number of the folder.
pub fn tmp_in(alloc: Global, cache: &TreePath, agent: &str, number: u32) -> Result<TreePath, Memory>
    requires { IsName word_rule agent.now }
    ensures { IfOk result (λ p. p ≡ tmp_at cache.now agent.now number) }
{
    let folder = tmp_folder(alloc, cache)?;
    agent_in(alloc, &folder, agent, number)
}

/// Where an agent sets a damaged package aside, by the number of the folder.
pub fn damaged_in(
    alloc: Global,
    cache: &TreePath,
    agent: &str,
    number: u32,
) -> Result<TreePath, Memory>
    requires { IsName word_rule agent.now }
    ensures { IfOk result (λ p. p ≡ damaged_at cache.now agent.now number) }
{
    let folder = damaged_folder(alloc, cache)?;
    agent_in(alloc, &folder, agent, number)
}
