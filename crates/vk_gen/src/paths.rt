//! The paths of the load's files.
ghost use Rattle.std.specs.Prelude.{◌≡◌, ◌<◌, ◌∷◌, [], IfOk, IsTrue, codes};
ghost use Rattle.vk_base.specs.Paths.{is_part};
ghost use Rattle.vk_gen.specs.Loads.{at, baseline_path, manifest_path, port_name, table_path};
ghost use Rattle.vk_gen.specs.Loads.{configuration_path, root_path, triplet_path};

use crate::names::{port_name, table_name};
use std::alloc::Global;
use vk_base::{Memory, TreePath};

// The path of one part.
fn at(alloc: Global, part: &str) -> Result<TreePath, Memory>
    requires { IsTrue (is_part part.now) }
    ensures { IfOk result (λ p. p ≡ at (part.now ∷ [])) }
{
    TreePath::new(alloc).child(alloc, part)
}

/// The path of the project's manifest.
pub(crate) fn root_path(alloc: Global) -> Result<TreePath, Memory>
    ensures { IfOk result (λ p. p ≡ root_path) }
{
    at(alloc, "vcpkg.json")
}

/// The path of the project's configuration.
pub(crate) fn configuration_path(alloc: Global) -> Result<TreePath, Memory>
    ensures { IfOk result (λ p. p ≡ configuration_path) }
{
    at(alloc, "vcpkg-configuration.json")
}

/// The path of the triplet's file.
pub(crate) fn triplet_path(alloc: Global) -> Result<TreePath, Memory>
    ensures { IfOk result (λ p. p ≡ triplet_path) }
{
    at(alloc, "triplets")?.child(alloc, "x64-linux.cmake")
}

// The folder of the registry's versions files.
fn versions_folder(alloc: Global) -> Result<TreePath, Memory>
    ensures { IfOk result (λ p. p ≡ at (codes "reg" ∷ codes "versions" ∷ [])) }
{
    at(alloc, "reg")?.child(alloc, "versions")
}

/// The path of the registry's baseline.
pub(crate) fn baseline_path(alloc: Global) -> Result<TreePath, Memory>
    ensures { IfOk result (λ p. p ≡ baseline_path) }
{
    versions_folder(alloc)?.child(alloc, "baseline.json")
}

/// The path of a port's versions file.
pub(crate) fn table_path(alloc: Global, port: u32) -> Result<TreePath, Memory>
    requires { port < 10000 }
    ensures { IfOk result (λ p. p ≡ table_path port) }
{
    let name = table_name(alloc, port)?;
    let folder = versions_folder(alloc)?.child(alloc, "p-")?;
    folder.child(alloc, name.as_str())
}

// The folder of a port.
fn port_folder(alloc: Global, port: u32) -> Result<TreePath, Memory>
    requires { port < 10000 }
    ensures { IfOk result (λ p. p ≡ at (codes "reg" ∷ codes "ports" ∷ port_name port ∷ [])) }
{
    let name = port_name(alloc, port)?;
    let ports = at(alloc, "reg")?.child(alloc, "ports")?;
    ports.child(alloc, name.as_str())
}

/// The path of the manifest of a version of a port.
pub(crate) fn manifest_path(alloc: Global, port: u32, version: &str) -> Result<TreePath, Memory>
    requires port { port < 10000 }
    requires version { IsTrue (is_part version.now) }
    ensures { IfOk result (λ p. p ≡ manifest_path port version.now) }
{
    let folder = port_folder(alloc, port)?.child(alloc, version)?;
    folder.child(alloc, "vcpkg.json")
}
