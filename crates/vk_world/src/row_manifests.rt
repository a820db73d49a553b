//! The manifest of a version, which is read where it stands.
ghost use Rattle.std.specs.Prelude.{◌≡◌, ◌∷◌, [], map, option_map, Some, Ok, Err, IfOk, false};
ghost use Rattle.vk_spec.specs.Pages.{row_in};
ghost use Rattle.vk_spec.specs.Reading.{◌>>=◌ as and_then, Gives};
ghost use Rattle.vk_registry.specs.Agreement.{agreeing};
ghost use Rattle.vk_registry.specs.TableViews.{row_view};
ghost use Rattle.vk_version.specs.AskViews.{ask_view};
ghost use Rattle.vk_base.specs.declared.stops.Outage.TheVariants as outage;
ghost use Rattle.vk_base.specs.Stops.{fault_seen, has_failed, out_of_memory};
ghost use Rattle.vk_model.specs.Views.{manifest_view};
ghost use Rattle.vk_catalogue.specs.Views.{manifest_said, wrong_view};
ghost use Rattle.vk_files.specs.Views.{held};
ghost use Rattle.vk_opening.specs.Projects.{manifest_path};
ghost use Rattle.vk_files.specs.Finds.{NothingKnown, ReadsFrom};
ghost use Rattle.vk_pages.specs.Pages.{row_folder, row_manifest, page_row};
ghost use Rattle.vk_pages.specs.Asked.{row_path, manifest_paths};
ghost use Rattle.vk_pages.specs.HomeViews.{home_view};
ghost use Rattle.vk_world.specs.Learning.{Learns};
ghost use Rattle.vk_world.specs.HomeNotes.{found_home};
ghost use Rattle.vk_world.specs.Libraries.{SaysManifestAt};

use crate::listed::row_meant;
use crate::settling::settle;
use std::alloc::Global;
use std::rc::Rc;
use vk_base::{Memory, Outage, PortName, Stop, TreePath};
use vk_catalogue::Wrong;
use vk_files::Archive;
use vk_model::Manifest;
use vk_opening::{PortFile, manifest_path};
use vk_pages::{Home, row_folder};
use vk_registry::{Row, Table, agree};
use vk_tree::Tree;
use vk_version::{Ask, Version};

// Where the manifest of a row stands.
fn row_path(alloc: Global, registry: &TreePath, row: &Row) -> Result<TreePath, Memory>
    ensures { IfOk result (λ p. p ≡ manifest_path (row_folder registry.now (row_view row.now))) }
{
    let folder = row_folder(alloc, registry, row)?;
    manifest_path(alloc, &folder)
}

// A manifest that has to be that of the port and the version, to be shared.
fn agreed(
    alloc: Global,
    path: &TreePath,
    port: &PortName,
    version: &Version,
    manifest: Manifest,
) -> Result<Rc<Manifest>, Stop<Wrong>>
    ensures told { Gives (λ m. manifest_view m.value) (fault_seen wrong_view) result
        (and_then (agreeing path.now port.now version.now (manifest_view manifest))
        (λ same. Ok (manifest_view manifest))) }
    ensures calm { has_failed result ≡ false }
{
    match agree(alloc, path, port, version, &manifest) {
        Ok(()) => Ok(Rc::new(alloc, manifest)?),
        Err(stop) => {
            drop(manifest);
            Err(stop)
        }
    }
}

// The manifest of a row, if it is that of the port and the version.
fn row_manifest<T: Tree>(
    archive: &mut Archive<T>,
    port: &PortName,
    registry: &TreePath,
    row: &Row,
) -> Result<Rc<Manifest>, Stop<Wrong>>
    ensures { ReadsFrom wrong_view (λ m. manifest_view m.value) result
        (row_manifest port.now registry.now (row_view row.now))
        (λ f. row_path registry.now (row_view row.now) ∷ [])
        (held T.state archive.old) (held T.state archive.new) }
{
    let path = row_path(archive.alloc(), registry, row)?;
    let manifest = archive.read::<PortFile, Wrong>(&path, &PortFile)?;
    agreed(archive.alloc(), &path, port, &row.version, manifest)
}

// The answer where there is no manifest to answer, which no caller asks for.
fn no_answer<X>() -> Result<X, Outage>
    ensures { result ≡ Err (outage.Memory out_of_memory) }
{
    Err(Outage::from(Memory::without_allocation()))
}

// The manifest of the row that an ask means. Where no row is meant, nothing is promised.
fn table_manifest<T: Tree>(
    archive: &mut Archive<T>,
    port: &PortName,
    registry: &TreePath,
    table: &Table,
    ask: &Ask,
) -> Result<Result<Rc<Manifest>, Wrong>, Outage>
    ensures { Learns result
        (λ f m. Some (manifest_said m) ≡ option_map (λ r. r.manifest)
        (row_in (map (page_row port.now registry.now f) table.now) (ask_view ask.now)))
        (λ f. map (row_path registry.now) table.now) NothingKnown NothingKnown
        (held T.state archive.old) (held T.state archive.new) }
{
    match row_meant(table, ask) {
        Some(row) => settle(row_manifest(archive, port, registry, row)),
        None => no_answer(),
    }
}

// The manifest of the version that an ask means at a home.
fn home_manifest<T: Tree>(
    archive: &mut Archive<T>,
    port: &PortName,
    home: &Home,
    ask: &Ask,
) -> Result<Result<Rc<Manifest>, Wrong>, Outage>
    ensures { Learns result
        (λ f. SaysManifestAt port.now (ask_view ask.now) f (Ok (home_view home.now)))
        (λ f. manifest_paths (Ok (home_view home.now))) NothingKnown NothingKnown
        (held T.state archive.old) (held T.state archive.new) }
{
    match home {
        Home::Overlay { manifest, .. } => Ok(Ok(manifest.clone()?)),
        Home::Registry { folder, table, .. } => {
            table_manifest(archive, port, folder, table, ask)
        }
    }
}

/// The manifest of the version that an ask means, by what was found for the port. Where no version
/// is meant, nothing is promised.
pub fn manifest_for<T: Tree>(
    archive: &mut Archive<T>,
    port: &PortName,
    found: &Result<Home, Wrong>,
    ask: &Ask,
) -> Result<Result<Rc<Manifest>, Wrong>, Outage>
    ensures { Learns result
        (λ f. SaysManifestAt port.now (ask_view ask.now) f (found_home found.now))
        (λ f. manifest_paths (found_home found.now)) NothingKnown NothingKnown
        (held T.state archive.old) (held T.state archive.new) }
{
    match found {
        Ok(home) => home_manifest(archive, port, home, ask),
        Err(_) => no_answer(),
    }
}
