//! The folders that stand before every registry.
ghost use Rattle.std.specs.Prelude.{◌∷◌, [], map};
ghost use Rattle.vk_files.specs.Views.{held};
ghost use Rattle.vk_files.specs.Finds.{ReadsFrom};
ghost use Rattle.vk_files.specs.StandingViews.{standing_view};
ghost use Rattle.vk_model.specs.EarlyViews.{early_view};
ghost use Rattle.vk_model.specs.Views.{manifest_view};
ghost use Rattle.vk_opening.specs.Overlays.{port_at, overlay_by, overlay_at, overlays_at};
ghost use Rattle.vk_opening.specs.Asked.{overlay_paths};
ghost use Rattle.vk_opening.specs.Projects.{manifest_path};
ghost use Rattle.vk_opening.specs.Roots.{early_at, port_in};
ghost use Rattle.vk_opening.specs.Layouts.{is_port};
ghost use Rattle.vk_opening.specs.Views.{overlay_view};

use crate::layouts::Overlay;
use crate::projects::manifest_path;
use crate::roots::PortFile;
use std::rc::Rc;
use vk_base::{List, Stop, TreePath};
use vk_files::{Archive, Standing};
use vk_model::{Early, Manifest};
use vk_tree::Tree;

// The manifest in a folder.
fn port_file<T: Tree>(archive: &mut Archive<T>, folder: &TreePath) -> Result<Manifest, Stop<Early>>
    ensures { ReadsFrom early_view manifest_view result
        (early_at port_in (manifest_path folder.now)) (λ f. manifest_path folder.now ∷ [])
        (held T.state archive.old) (held T.state archive.new) }
{
    let path = manifest_path(archive.alloc(), folder)?;
    archive.read(&path, &PortFile)
}

// The manifest in a folder that is a port.
fn port_manifest<T: Tree>(
    archive: &mut Archive<T>,
    folder: &TreePath,
) -> Result<Rc<Manifest>, Stop<Early>>
    ensures { ReadsFrom early_view (λ m. is_port folder.now (manifest_view m.value)) result
        (port_at folder.now) (λ f. manifest_path folder.now ∷ [])
        (held T.state archive.old) (held T.state archive.new) }
{
    let manifest = port_file(archive, folder)?;
    Ok(Rc::new(archive.alloc(), manifest)?)
}

// A folder that is a port, with its manifest.
fn port_at<T: Tree>(archive: &mut Archive<T>, folder: TreePath) -> Result<Overlay, Stop<Early>>
    ensures { ReadsFrom early_view overlay_view result (port_at folder)
        (λ f. manifest_path folder ∷ []) (held T.state archive.old) (held T.state archive.new) }
{
    let manifest = port_manifest(archive, &folder)?;
    Ok(Overlay::Port(folder, manifest))
}

// A folder, by how the manifest in it stands.
fn overlay_by<T: Tree>(
    archive: &mut Archive<T>,
    standing: Standing,
    folder: TreePath,
) -> Result<Overlay, Stop<Early>>
    ensures { ReadsFrom early_view overlay_view result (overlay_by (standing_view standing) folder)
        (λ f. manifest_path folder ∷ []) (held T.state archive.old) (held T.state archive.new) }
{
    match standing {
        Standing::Missing => Ok(Overlay::Ports(folder)),
        Standing::TooLong => port_at(archive, folder),
        Standing::Readable => port_at(archive, folder),
    }
}

fn overlay_at<T: Tree>(archive: &mut Archive<T>, folder: TreePath) -> Result<Overlay, Stop<Early>>
    ensures { ReadsFrom early_view overlay_view result (overlay_at folder)
        (λ f. manifest_path folder ∷ []) (held T.state archive.old) (held T.state archive.new) }
{
    let path = manifest_path(archive.alloc(), &folder)?;
    let standing = archive.standing::<Early>(&path)?;
    overlay_by(archive, standing, folder)
}

/// What each of the folders is, in their order.
pub fn read_overlays<T: Tree>(
    archive: &mut Archive<T>,
    folders: List<TreePath>,
) -> Result<List<Overlay>, Stop<Early>>
    ensures { ReadsFrom early_view (λ l. map overlay_view l) result (overlays_at folders)
        (overlay_paths folders) (held T.state archive.old) (held T.state archive.new) }
{
    let mut overlays = List::new(archive.alloc());
    for folder in folders.into_vec() {
        let overlay = overlay_at(archive, folder)?;
        overlays.push(overlay)?;
    }
    Ok(overlays)
}
