//! Where the versions of a port are.
ghost use Rattle.vk_files.specs.Views.{held};
ghost use Rattle.vk_pages.specs.Homes.{home_of};
ghost use Rattle.vk_pages.specs.Asked.{home_paths};
ghost use Rattle.vk_files.specs.Finds.{Finds};
ghost use Rattle.vk_catalogue.specs.Views.{wrong_view};
ghost use Rattle.vk_pages.specs.BaselineNotes.{AreBaselines};
ghost use Rattle.vk_opening.specs.Views.{layout_view};
ghost use Rattle.vk_pages.specs.HomeViews.{home_view};
ghost use Rattle.vk_pages.specs.NoteViews.{notes_of};

use crate::baselines::Baselines;
use crate::overlays::{home_in, overlay_for};
use crate::registries::registry_home;
use std::rc::Rc;
use vk_base::{PortName, Stop, TreePath};
use vk_catalogue::{Given, Wrong};
use vk_files::Archive;
use vk_model::Manifest;
use vk_opening::Layout;
use vk_registry::Table;
use vk_tree::Tree;
use vk_version::Version;

/// Where a port's versions are.
#[derive(Drop)]
pub enum Home {
    /// The first overlay that has the port.
    Overlay {
        /// The port's folder.
        folder: TreePath,
        /// The one version that it has.
        version: Version,
        /// Its manifest.
        manifest: Rc<Manifest>,
    },
    /// The registry that serves it.
    Registry {
        /// What is given for the port.
        given: Given,
        /// The registry's folder.
        folder: TreePath,
        /// Its versions.
        table: Table,
    },
}

/// Where the versions of a port are: in the first overlay that has it, or else in the registry that
/// serves it, where an override counts before the baseline. `Fault` has the first thing that is
/// wrong. A file that was read before isn't read again, and no path is looked at but those that are
/// needed for the answer.
pub fn home_of<T: Tree>(
    archive: &mut Archive<T>,
    layout: &Layout,
    baselines: &mut Baselines,
    port: &PortName,
) -> Result<Home, Stop<Wrong>>
    ensures { Finds wrong_view home_view result (home_of (layout_view layout.now) port.now)
        (λ f. home_paths (layout_view layout.now) f port.now)
        (AreBaselines (notes_of baselines.old)) (AreBaselines (notes_of baselines.new))
        (held T.state archive.old) (held T.state archive.new) }
{
    match overlay_for(archive, layout.overlays.as_slice(), port)? {
        Some(overlay) => home_in(archive, overlay, port),
        None => registry_home(archive, layout, baselines, port),
    }
}
