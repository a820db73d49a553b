//! Where the files of registries and ports stand.
ghost use Rattle.std.specs.Prelude.{◌≡◌, ◌++◌, ◌∷◌, [], IfOk, None, true, take, codes};
ghost use Rattle.vk_base.specs.Names.{name_fault, port_rule};
ghost use Rattle.vk_base.specs.Paths.{is_part};
ghost use Rattle.vk_registry.specs.RegistryFiles.{baseline_path, port_folder, table_path};

use std::alloc::Global;
use vk_base::{Memory, PortName, Text, TreePath};

/// The folder of a port in a folder of ports.
pub fn port_folder(alloc: Global, folder: &TreePath, port: &PortName) -> Result<TreePath, Memory>
    ensures { IfOk result (λ p. p ≡ port_folder folder.now port.now) }
{
    folder.child(alloc, port.as_str())
}

fn versions_path(alloc: Global, registry: &TreePath) -> Result<TreePath, Memory>
    ensures { IfOk result (λ p. p ≡ registry.now ++ codes "versions" ∷ []) }
{
    registry.child(alloc, "versions")
}

/// The baseline file of a registry.
pub fn baseline_path(alloc: Global, registry: &TreePath) -> Result<TreePath, Memory>
    ensures { IfOk result (λ p. p ≡ baseline_path registry.now) }
{
    versions_path(alloc, registry)?.child(alloc, "baseline.json")
}

// The folder of a port's versions file, named for its first byte.
fn letter_name(alloc: Global, port: &PortName) -> Result<Text, Memory>
    ensures name { IfOk result (λ t. t ≡ take 1 port.now ++ codes "-") }
    ensures part { IfOk result (λ t. is_part t ≡ true) }
{
    let mut name = Text::new(alloc);
    name.push_str(first_letter(port))?;
    name.push_str("-")?;
    Ok(name)
}

fn first_letter(port: &PortName) -> &str
    ensures letter { result.now ≡ take 1 port.now }
    ensures name { name_fault port_rule port.now ≡ None }
{
    let (first, _) = port.as_str().split_at(1);
    first
}

// The name of a port's versions file.
fn table_name(alloc: Global, port: &PortName) -> Result<Text, Memory>
    ensures name { IfOk result (λ t. t ≡ port.now ++ codes ".json") }
    ensures part { IfOk result (λ t. is_part t ≡ true) }
{
    let mut name = Text::from_str(alloc, port.as_str())?;
    name.push_str(".json")?;
    Ok(name)
}

// The folder of a port's versions file.
fn letter_folder(alloc: Global, registry: &TreePath, port: &PortName) -> Result<TreePath, Memory>
    ensures { IfOk result (λ p. p ≡ registry.now
        ++ codes "versions" ∷ (take 1 port.now ++ codes "-") ∷ []) }
{
    let letter = letter_name(alloc, port)?;
    versions_path(alloc, registry)?.child(alloc, letter.as_str())
}

/// The versions file of a port in a registry.
pub fn table_path(alloc: Global, registry: &TreePath, port: &PortName) -> Result<TreePath, Memory>
    ensures { IfOk result (λ p. p ≡ table_path port.now registry.now) }
{
    let folder = letter_folder(alloc, registry, port)?;
    let name = table_name(alloc, port)?;
    folder.child(alloc, name.as_str())
}
