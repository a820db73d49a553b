//! Answers from what was found for a port.
ghost use Rattle.std.specs.Prelude.{◌≡◌, ℕ, List, IfOk, Ok, false, option_map};
ghost use Rattle.vk_spec.specs.Files.{Files};
ghost use Rattle.vk_version.specs.AskViews.{ask_view};
ghost use Rattle.vk_base.specs.Stops.{was_out};
ghost use Rattle.vk_pages.specs.HomeViews.{home_view};
ghost use Rattle.vk_world.specs.HomeNotes.{found_home};
ghost use Rattle.vk_world.specs.Libraries.{SaysGivenAt, SaysVersionAt};
ghost use Rattle.vk_world.specs.Listed.{row_meant};
ghost use Rattle.vk_world.specs.VersionFolders.{folder_found, table_folder, version_folder};

use crate::listed::{row_meant, row_with, same_version};
use std::alloc::Global;
use vk_base::{Memory, Outage, TreePath};
use vk_catalogue::{Given, Wrong};
use vk_pages::{Home, row_folder};
use vk_registry::Table;
use vk_version::{Ask, Version};

/// What is given for a port, by what was found.
pub fn answer_given(found: &Result<Home, Wrong>) -> Result<Result<Given, Wrong>, Outage>
    ensures told { (port : List ℕ) (files : Files)
        → IfOk result (SaysGivenAt port files (found_home found.now)) }
    ensures calm { was_out result ≡ false }
{
    match found {
        Ok(Home::Overlay { version, .. }) => Ok(Ok(Given::Overlay(version.clone()?))),
        Ok(Home::Registry { given, .. }) => Ok(Ok(given.clone()?)),
        Err(wrong) => Ok(Err(wrong.clone()?)),
    }
}

// The version of a registry's table that an ask means.
fn table_version(table: &Table, ask: &Ask) -> Result<Option<Version>, Memory>
    ensures { IfOk result
        (λ v. v ≡ option_map (λ r. r.version) (row_meant table.now (ask_view ask.now))) }
{
    match row_meant(table, ask) {
        Some(row) => Ok(Some(row.version.clone()?)),
        None => Ok(None),
    }
}

fn version_at(home: &Home, ask: &Ask) -> Result<Option<Version>, Memory>
    ensures { (port : List ℕ) (files : Files)
        → IfOk result (SaysVersionAt port (ask_view ask.now) files (Ok (home_view home.now))) }
{
    match home {
        Home::Overlay { version, .. } if version.ask() == ask => Ok(Some(version.clone()?)),
        Home::Overlay { .. } => Ok(None),
        Home::Registry { table, .. } => table_version(table, ask),
    }
}

/// The version of a port that an ask means, by what was found.
pub fn answer_version(found: &Result<Home, Wrong>, ask: &Ask) -> Result<Option<Version>, Outage>
    ensures told { (port : List ℕ) (files : Files)
        → IfOk result (SaysVersionAt port (ask_view ask.now) files (found_home found.now)) }
    ensures calm { was_out result ≡ false }
{
    match found {
        Ok(home) => Ok(version_at(home, ask)?),
        Err(_) => Ok(None),
    }
}

// Where a registry's table says that a version stands.
fn table_folder(
    alloc: Global,
    registry: &TreePath,
    table: &Table,
    version: &Version,
) -> Result<Option<TreePath>, Memory>
    ensures { IfOk result (λ f. f ≡ table_folder registry.now table.now version.now) }
{
    match row_with(table.rows(), version) {
        Some(row) => Ok(Some(row_folder(alloc, registry, row)?)),
        None => Ok(None),
    }
}

fn folder_at(alloc: Global, home: &Home, version: &Version) -> Result<Option<TreePath>, Memory>
    ensures { IfOk result (λ f. f ≡ version_folder (home_view home.now) version.now) }
{
    match home {
        Home::Overlay {
            folder,
            version: own,
            ..
        } if same_version(version, own) => Ok(Some(folder.clone()?)),
        Home::Overlay { .. } => Ok(None),
        Home::Registry { folder, table, .. } => table_folder(alloc, folder, table, version),
    }
}

/// Where a version of a port stands, by what was found.
pub fn answer_folder(
    alloc: Global,
    found: &Result<Home, Wrong>,
    version: &Version,
) -> Result<Option<TreePath>, Outage>
    ensures told { IfOk result (λ f. f ≡ folder_found (found_home found.now) version.now) }
    ensures calm { was_out result ≡ false }
{
    match found {
        Ok(home) => Ok(folder_at(alloc, home, version)?),
        Err(_) => Ok(None),
    }
}
