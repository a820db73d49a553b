//! The load as a tree in memory.
ghost use Rattle.std.specs.Prelude.{◌≡◌, ◌<◌, ◌≤◌, IfOk, OnOk, true};
ghost use Rattle.std.specs.FinMap as map;
ghost use Rattle.vk_tree.specs.MemTrees.{mem_files, mem_state, with_file};
ghost use Rattle.vk_gen.specs.Loads.{load_state, port_files, project_files, untouched};
ghost use Rattle.vk_gen.specs.Loads.{manifest_path, newer, newer_manifest, older, older_manifest};
ghost use Rattle.vk_gen.specs.Loads.{table_path, table_text, root_path, root_manifest};
ghost use Rattle.vk_gen.specs.Loads.{configuration_path, configuration, triplet_path};
ghost use Rattle.vk_gen.specs.Loads.{stock_triplet, baseline_path, baseline_text};
ghost use Rattle.vk_gen.specs.Puts.{AreAtFilePaths, is_file_path, with_files};

use crate::paths::{
    baseline_path, configuration_path, manifest_path, root_path, table_path, triplet_path,
};
use crate::texts::{
    CONFIGURATION, NEWER, OLDER, ROOT_MANIFEST, STOCK_TRIPLET, baseline_text, newer_manifest,
    older_manifest, table_text,
};
use std::alloc::Global;
use vk_base::{Memory, TreePath};
use vk_tree::MemTree;

/// The load of a size, from 1 to 2,000: a tree in memory with exactly its files. Its log is empty,
/// all its counts are 0, and no call is to fail.
pub fn generate(alloc: Global, size: u32) -> Result<MemTree, Memory>
    requires some { 1 ≤ size }
    requires most { size ≤ 2000 }
    ensures { IfOk result (λ tree. mem_state tree ≡ load_state size) }
{
    let mut tree = MemTree::new(alloc)?;
    fill(alloc, &mut tree, size)?;
    Ok(tree)
}

// Puts all files of the load.
fn fill(alloc: Global, tree: &mut MemTree, size: u32) -> Result<(), Memory>
    requires most { size ≤ 2000 }
    requires new { mem_state tree.old ≡ untouched map.empty }
    ensures { OnOk result (mem_state tree.new ≡ load_state size) }
{
    put_project(alloc, tree, size)?;
    for port in 0..size {
        put_port(alloc, tree, size, port)?;
    }
    Ok(())
}

// Puts one file.
fn put(tree: &mut MemTree, path: &TreePath, text: &str) -> Result<(), Memory>
    requires path { is_file_path path.now ≡ true }
    requires files { AreAtFilePaths (mem_files tree.old) }
    ensures put { OnOk result
        (mem_state tree.new ≡ with_file path.now text.now (mem_state tree.old)) }
    ensures files { AreAtFilePaths (mem_files tree.new) }
{
    tree.put(path, text.as_bytes())
}

// Puts the project's manifest.
fn put_root(alloc: Global, tree: &mut MemTree) -> Result<(), Memory>
    requires files { AreAtFilePaths (mem_files tree.old) }
    ensures put { OnOk result (mem_state tree.new
        ≡ with_file root_path root_manifest (mem_state tree.old)) }
    ensures files { AreAtFilePaths (mem_files tree.new) }
{
    put(tree, &root_path(alloc)?, ROOT_MANIFEST)
}

// Puts the project's configuration.
fn put_configuration(alloc: Global, tree: &mut MemTree) -> Result<(), Memory>
    requires files { AreAtFilePaths (mem_files tree.old) }
    ensures put { OnOk result (mem_state tree.new
        ≡ with_file configuration_path configuration (mem_state tree.old)) }
    ensures files { AreAtFilePaths (mem_files tree.new) }
{
    put(tree, &configuration_path(alloc)?, CONFIGURATION)
}

// Puts the triplet's file.
fn put_triplet(alloc: Global, tree: &mut MemTree) -> Result<(), Memory>
    requires files { AreAtFilePaths (mem_files tree.old) }
    ensures put { OnOk result (mem_state tree.new
        ≡ with_file triplet_path stock_triplet (mem_state tree.old)) }
    ensures files { AreAtFilePaths (mem_files tree.new) }
{
    put(tree, &triplet_path(alloc)?, STOCK_TRIPLET)
}

// Puts the registry's baseline.
fn put_baseline(alloc: Global, tree: &mut MemTree, size: u32) -> Result<(), Memory>
    requires most { size ≤ 2000 }
    requires files { AreAtFilePaths (mem_files tree.old) }
    ensures put { OnOk result (mem_state tree.new
        ≡ with_file baseline_path (baseline_text size) (mem_state tree.old)) }
    ensures files { AreAtFilePaths (mem_files tree.new) }
{
    let text = baseline_text(alloc, size)?;
    put(tree, &baseline_path(alloc)?, text.as_str())
}

// Puts the project's own files, and the registry's baseline.
fn put_project(alloc: Global, tree: &mut MemTree, size: u32) -> Result<(), Memory>
    requires most { size ≤ 2000 }
    requires files { AreAtFilePaths (mem_files tree.old) }
    ensures put { OnOk result
        (mem_state tree.new ≡ with_files (project_files size) (mem_state tree.old)) }
    ensures files { AreAtFilePaths (mem_files tree.new) }
{
    put_root(alloc, tree)?;
    put_configuration(alloc, tree)?;
    put_triplet(alloc, tree)?;
    put_baseline(alloc, tree, size)
}

// Puts the versions file of a port.
fn put_table(alloc: Global, tree: &mut MemTree, port: u32) -> Result<(), Memory>
    requires port { port < 10000 }
    requires files { AreAtFilePaths (mem_files tree.old) }
    ensures put { OnOk result (mem_state tree.new
        ≡ with_file (table_path port) (table_text port) (mem_state tree.old)) }
    ensures files { AreAtFilePaths (mem_files tree.new) }
{
    let text = table_text(alloc, port)?;
    put(tree, &table_path(alloc, port)?, text.as_str())
}

// Puts the manifest of the older version of a port.
fn put_older(alloc: Global, tree: &mut MemTree, size: u32, port: u32) -> Result<(), Memory>
    requires most { size ≤ 2000 }
    requires port { port < size }
    requires files { AreAtFilePaths (mem_files tree.old) }
    ensures put { OnOk result (mem_state tree.new
        ≡ with_file (manifest_path port older) (older_manifest size port) (mem_state tree.old)) }
    ensures files { AreAtFilePaths (mem_files tree.new) }
{
    let text = older_manifest(alloc, size, port)?;
    put(tree, &manifest_path(alloc, port, OLDER)?, text.as_str())
}

// Puts the manifest of the newer version of a port.
fn put_newer(alloc: Global, tree: &mut MemTree, size: u32, port: u32) -> Result<(), Memory>
    requires most { size ≤ 2000 }
    requires port { port < size }
    requires files { AreAtFilePaths (mem_files tree.old) }
    ensures put { OnOk result (mem_state tree.new
        ≡ with_file (manifest_path port newer) (newer_manifest size port) (mem_state tree.old)) }
    ensures files { AreAtFilePaths (mem_files tree.new) }
{
    let text = newer_manifest(alloc, size, port)?;
    put(tree, &manifest_path(alloc, port, NEWER)?, text.as_str())
}

// Puts the files of a port.
fn put_port(alloc: Global, tree: &mut MemTree, size: u32, port: u32) -> Result<(), Memory>
    requires most { size ≤ 2000 }
    requires port { port < size }
    requires files { AreAtFilePaths (mem_files tree.old) }
    ensures put { OnOk result
        (mem_state tree.new ≡ with_files (port_files size port) (mem_state tree.old)) }
    ensures files { AreAtFilePaths (mem_files tree.new) }
{
    put_table(alloc, tree, port)?;
    put_older(alloc, tree, size, port)?;
    put_newer(alloc, tree, size, port)
}
