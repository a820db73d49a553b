//! The overlays of a project, and a port in one.
ghost use Rattle.std.specs.Prelude.{◌≡◌, ◌∷◌, [], Ok, false, map, option_map};
ghost use Rattle.vk_spec.specs.Reading.{Gives};
ghost use Rattle.vk_model.specs.Views.{manifest_view};
ghost use Rattle.vk_catalogue.specs.Views.{wrong_view};
ghost use Rattle.vk_files.specs.Views.{held};
ghost use Rattle.vk_base.specs.Stops.{has_failed};
ghost use Rattle.vk_base.specs.Stops.{fault_seen};
ghost use Rattle.vk_files.specs.Readings.{is_at};
ghost use Rattle.vk_opening.specs.Projects.{manifest_path};
ghost use Rattle.vk_opening.specs.Views.{overlay_view};
ghost use Rattle.vk_registry.specs.RegistryFiles.{port_folder};
ghost use Rattle.vk_pages.specs.Homes.{is_named, has_port, overlay_for, in_overlay};
ghost use Rattle.vk_pages.specs.Homes.{overlay_home, if_named, named_manifest, folder_home};
ghost use Rattle.vk_pages.specs.Homes.{home_in};
ghost use Rattle.vk_pages.specs.Asked.{overlay_path, overlay_paths};
ghost use Rattle.vk_files.specs.Finds.{ReadsFrom};
ghost use Rattle.vk_pages.specs.HomeViews.{home_view};

use crate::homes::Home;
use std::alloc::Global;
use std::rc::Rc;
use vk_base::{PortName, Stop, TreePath};
use vk_catalogue::Wrong;
use vk_files::Archive;
use vk_model::Manifest;
use vk_opening::{Overlay, PortFile, manifest_path};
use vk_registry::{named, port_folder, stated_version};
use vk_tree::Tree;
use vk_version::Version;

fn is_named(manifest: &Manifest, port: &PortName) -> bool
    ensures { result ≡ is_named port.now (manifest_view manifest.now).name }
{
    match &manifest.name {
        Some(name) => port.as_str() == name.as_str(),
        None => false,
    }
}

// Whether a folder of ports has this one.
fn holds_port<T: Tree>(
    archive: &mut Archive<T>,
    folder: &TreePath,
    port: &PortName,
) -> Result<bool, Stop<Wrong>>
    ensures { ReadsFrom wrong_view (λ b. b) result
        (λ f. Ok (is_at f (manifest_path (port_folder folder.now port.now))))
        (λ f. manifest_path (port_folder folder.now port.now) ∷ [])
        (held T.state archive.old) (held T.state archive.new) }
{
    let folder = port_folder(archive.alloc(), folder, port)?;
    let path = manifest_path(archive.alloc(), &folder)?;
    archive.is_at(&path)
}

fn has_port<T: Tree>(
    archive: &mut Archive<T>,
    overlay: &Overlay,
    port: &PortName,
) -> Result<bool, Stop<Wrong>>
    ensures { ReadsFrom wrong_view (λ b. b) result
        (λ f. Ok (has_port port.now f (overlay_view overlay.now)))
        (λ f. overlay_path port.now (overlay_view overlay.now))
        (held T.state archive.old) (held T.state archive.new) }
{
    match overlay {
        Overlay::Port(_, manifest) => Ok(is_named(manifest, port)),
        Overlay::Ports(folder) => holds_port(archive, folder, port),
    }
}

/// The first overlay that has a port; `None` exactly where none has it. It refuses nothing, and no
/// overlay after the first is looked at.
pub fn overlay_for<'a, T: Tree>(
    archive: &mut Archive<T>,
    overlays: &'a [Overlay],
    port: &PortName,
) -> Result<Option<&'a Overlay>, Stop<Wrong>>
    ensures { ReadsFrom wrong_view (option_map (λ o. overlay_view o.now)) result
        (λ f. Ok (overlay_for (map overlay_view overlays.now) port.now f))
        (λ f. overlay_paths (map overlay_view overlays.now) f port.now)
        (held T.state archive.old) (held T.state archive.new) }
{
    for overlay in overlays {
        if has_port(archive, overlay, port)? {
            return Ok(Some(overlay));
        }
    }
    Ok(None)
}

// The version of the manifest in a folder that is a port.
#[tactic(auto, unfolding(crate::specs::Homes::overlay_home))]
fn own_version(
    alloc: Global,
    folder: &TreePath,
    manifest: &Manifest,
) -> Result<Version, Stop<Wrong>>
    ensures told { Gives (λ v. in_overlay folder.now v (manifest_view manifest.now))
        (fault_seen wrong_view) result (overlay_home folder.now (manifest_view manifest.now)) }
    ensures calm { has_failed result ≡ false }
{
    let path = manifest_path(alloc, folder)?;
    Ok(stated_version(alloc, &path, manifest)?.clone()?)
}

// The home of a port in its folder.
fn port_home(alloc: Global, folder: TreePath, manifest: Rc<Manifest>) -> Result<Home, Stop<Wrong>>
    ensures told { Gives home_view (fault_seen wrong_view) result
        (overlay_home folder (manifest_view manifest.value)) }
    ensures calm { has_failed result ≡ false }
{
    match own_version(alloc, &folder, &manifest) {
        Ok(version) => Ok(Home::Overlay {
            folder,
            version,
            manifest,
        }),
        Err(stop) => {
            drop(folder);
            drop(manifest);
            Err(stop)
        }
    }
}

// A manifest that has to have the port's name, to be shared.
fn named_own(
    alloc: Global,
    path: &TreePath,
    port: &PortName,
    manifest: Manifest,
) -> Result<Rc<Manifest>, Stop<Wrong>>
    ensures told { Gives (λ m. manifest_view m.value) (fault_seen wrong_view) result
        (if_named path.now port.now (manifest_view manifest)) }
    ensures calm { has_failed result ≡ false }
{
    match named(alloc, path, port, &manifest) {
        Ok(()) => Ok(Rc::new(alloc, manifest)?),
        Err(stop) => {
            drop(manifest);
            Err(stop)
        }
    }
}

// The manifest in a folder, which has to have the port's name.
fn named_manifest<T: Tree>(
    archive: &mut Archive<T>,
    folder: &TreePath,
    port: &PortName,
) -> Result<Rc<Manifest>, Stop<Wrong>>
    ensures { ReadsFrom wrong_view (λ m. manifest_view m.value) result
        (named_manifest port.now folder.now) (λ f. manifest_path folder.now ∷ [])
        (held T.state archive.old) (held T.state archive.new) }
{
    let path = manifest_path(archive.alloc(), folder)?;
    let manifest = archive.read::<PortFile, Wrong>(&path, &PortFile)?;
    named_own(archive.alloc(), &path, port, manifest)
}

// The home of a port in its folder, whose manifest has to have the port's name.
fn folder_home<T: Tree>(
    archive: &mut Archive<T>,
    folder: TreePath,
    port: &PortName,
) -> Result<Home, Stop<Wrong>>
    ensures { ReadsFrom wrong_view home_view result (folder_home port.now folder)
        (λ f. manifest_path folder ∷ []) (held T.state archive.old) (held T.state archive.new) }
{
    match named_manifest(archive, &folder, port) {
        Ok(manifest) => port_home(archive.alloc(), folder, manifest),
        Err(stop) => {
            drop(folder);
            Err(stop)
        }
    }
}

/// The home of a port that an overlay has. `Fault` has what is wrong with its manifest, which is
/// the only file that is looked at.
pub fn home_in<T: Tree>(
    archive: &mut Archive<T>,
    overlay: &Overlay,
    port: &PortName,
) -> Result<Home, Stop<Wrong>>
    ensures { ReadsFrom wrong_view home_view result (home_in (overlay_view overlay.now) port.now)
        (λ f. overlay_path port.now (overlay_view overlay.now))
        (held T.state archive.old) (held T.state archive.new) }
{
    match overlay {
        Overlay::Port(folder, manifest) => port_home(
            archive.alloc(),
            folder.clone()?,
            manifest.clone()?,
        ),
        Overlay::Ports(folder) => {
            let folder = port_folder(archive.alloc(), folder, port)?;
            folder_home(archive, folder, port)
        }
    }
}
