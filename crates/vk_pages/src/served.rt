//! The registry that serves a port, and the folders of its versions.
ghost use Rattle.std.specs.Prelude.{◌≡◌, IfOk, Some, false, option_map};
ghost use Rattle.vk_spec.specs.Reading.{Gives};
ghost use Rattle.vk_config.specs.Views.{config_view, source_view};
ghost use Rattle.vk_catalogue.specs.Views.{wrong_view};
ghost use Rattle.vk_base.specs.Stops.{fault_seen, has_failed};
ghost use Rattle.vk_pages.specs.Homes.{source_at, served_by, served_for};
ghost use Rattle.vk_opening.specs.Views.{layout_view};
ghost use Rattle.vk_pages.specs.HomeViews.{served_view};
ghost use Rattle.vk_pages.specs.Pages.{row_folder};
ghost use Rattle.vk_registry.specs.TableViews.{row_view};

use std::alloc::Global;
use vk_base::{Memory, PortName, SharedText, Stop, TreePath};
use vk_catalogue::Wrong;
use vk_config::{Config, Source, registry_of};
use vk_opening::{Layout, from_folder};
use vk_registry::Row;

/// A registry in a folder.
#[derive(Clone, PartialEq, Eq, Hash, Drop)]
pub struct Served {
    /// The folder.
    pub folder: TreePath,
    /// The name of the baseline that counts.
    pub baseline: SharedText,
}

// The source at a place: their number is the default registry's.
fn source_at(config: &Config, place: usize) -> Option<&Source>
    ensures { option_map (λ s. source_view s.now) result ≡ source_at (config_view config.now)
        place }
{
    if place == config.registries.len() {
        return config.default.as_ref();
    }
    match config.registries.get(place) {
        Some(registry) => Some(&registry.source),
        None => None,
    }
}

// Where a registry is, by its source.
fn served_by(alloc: Global, project: &TreePath, source: &Source) -> Result<Served, Stop<Wrong>>
    ensures told { Gives served_view (fault_seen wrong_view) result
        (served_by project.now (Some (source_view source.now))) }
    ensures calm { has_failed result ≡ false }
{
    match source {
        Source::Filesystem { path, baseline } => Ok(Served {
            folder: from_folder(alloc, project, path)?,
            baseline: baseline.clone()?,
        }),
        Source::Git | Source::Builtin | Source::Artifact => Err(Stop::Fault(Wrong::NoRegistry)),
    }
}

/// The registry that serves a port. `Fault` says that none does.
pub fn served_for(alloc: Global, layout: &Layout, port: &PortName) -> Result<Served, Stop<Wrong>>
    ensures told { Gives served_view (fault_seen wrong_view) result
        (served_for (layout_view layout.now) port.now) }
    ensures calm { has_failed result ≡ false }
{
    let Some(place) = registry_of(&layout.config, port) else {
        return Err(Stop::Fault(Wrong::NoRegistry));
    };
    let Some(source) = source_at(&layout.config, place) else {
        return Err(Stop::Fault(Wrong::NoRegistry));
    };
    served_by(alloc, &layout.folder, source)
}

/// The folder of a row of a registry's table.
pub fn row_folder(alloc: Global, registry: &TreePath, row: &Row) -> Result<TreePath, Memory>
    ensures { IfOk result (λ p. p ≡ row_folder registry.now (row_view row.now)) }
{
    from_folder(alloc, registry, &row.path)
}
