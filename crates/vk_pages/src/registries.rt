//! A port in the registry that serves it.
ghost use Rattle.std.specs.Prelude.{◌≡◌, ◌∷◌, [], Ok, false, option_map};
ghost use Rattle.vk_spec.specs.Reading.{Gives};
ghost use Rattle.vk_spec.specs.Pages.{override};
ghost use Rattle.vk_version.specs.AskViews.{ask_view};
ghost use Rattle.vk_catalogue.specs.Views.{wrong_view, given_view};
ghost use Rattle.vk_files.specs.Views.{held};
ghost use Rattle.vk_base.specs.Stops.{has_failed};
ghost use Rattle.vk_base.specs.Stops.{fault_seen};
ghost use Rattle.vk_pages.specs.Homes.{given_by, table_in, home_with, served_home, registry_home};
ghost use Rattle.vk_registry.specs.RegistryFiles.{table_path};
ghost use Rattle.vk_pages.specs.Asked.{given_paths, served_paths, registry_paths};
ghost use Rattle.vk_files.specs.Finds.{Finds, ReadsFrom};
ghost use Rattle.vk_pages.specs.BaselineNotes.{AreBaselines};
ghost use Rattle.vk_opening.specs.Views.{layout_view};
ghost use Rattle.vk_pages.specs.HomeViews.{home_view, served_view};
ghost use Rattle.vk_pages.specs.NoteViews.{notes_of};

use crate::baselines::Baselines;
use crate::contents::PortTable;
use crate::homes::Home;
use crate::served::{Served, served_for};
use vk_base::{PortName, Stop};
use vk_catalogue::{Given, Wrong};
use vk_files::Archive;
use vk_opening::Layout;
use vk_registry::{Table, table_path};
use vk_tree::Tree;
use vk_version::Ask;

fn override_given(ask: &Ask) -> Result<Given, Stop<Wrong>>
    ensures told { Gives given_view (fault_seen wrong_view) result
        (Ok (override (ask_view ask.now))) }
    ensures calm { has_failed result ≡ false }
{
    Ok(Given::Override(ask.clone()?))
}

// What is given for a port: what is set for it, or what the registry's baseline has.
fn given_by<T: Tree>(
    archive: &mut Archive<T>,
    set: Option<&Ask>,
    served: &Served,
    baselines: &mut Baselines,
    port: &PortName,
) -> Result<Given, Stop<Wrong>>
    ensures { Finds wrong_view given_view result
        (given_by (option_map (λ a. ask_view a.now) set.entry) (served_view served.now) port.now)
        (λ f. given_paths (option_map (λ a. ask_view a.now) set.entry) (served_view served.now))
        (AreBaselines (notes_of baselines.old)) (AreBaselines (notes_of baselines.new))
        (held T.state archive.old) (held T.state archive.new) }
{
    match set {
        Some(ask) => override_given(ask),
        None => baselines.given(archive, served, port),
    }
}

// The versions file of a port in a registry.
fn table_in<T: Tree>(
    archive: &mut Archive<T>,
    served: &Served,
    port: &PortName,
) -> Result<Table, Stop<Wrong>>
    ensures { ReadsFrom wrong_view (λ t. t) result (table_in (served_view served.now) port.now)
        (λ f. table_path port.now served.now.folder ∷ [])
        (held T.state archive.old) (held T.state archive.new) }
{
    let path = table_path(archive.alloc(), &served.folder, port)?;
    archive.read(&path, &PortTable)
}

// A port in a registry, for which this is given.
fn home_with<T: Tree>(
    archive: &mut Archive<T>,
    given: Given,
    served: Served,
    port: &PortName,
) -> Result<Home, Stop<Wrong>>
    ensures { ReadsFrom wrong_view home_view result
        (home_with (given_view given) (served_view served) port.now)
        (λ f. table_path port.now served.folder ∷ [])
        (held T.state archive.old) (held T.state archive.new) }
{
    match table_in(archive, &served, port) {
        Ok(table) => Ok(Home::Registry {
            given,
            folder: served.folder,
            table,
        }),
        Err(stop) => {
            drop(given);
            drop(served);
            Err(stop)
        }
    }
}

// A port in a registry, for which something may be set.
fn served_home<T: Tree>(
    archive: &mut Archive<T>,
    set: Option<&Ask>,
    served: Served,
    baselines: &mut Baselines,
    port: &PortName,
) -> Result<Home, Stop<Wrong>>
    ensures { Finds wrong_view home_view result
        (served_home (option_map (λ a. ask_view a.now) set.entry) (served_view served) port.now)
        (λ f. served_paths (option_map (λ a. ask_view a.now) set.entry) (served_view served)
        f port.now) (AreBaselines (notes_of baselines.old)) (AreBaselines (notes_of baselines.new))
        (held T.state archive.old) (held T.state archive.new) }
{
    match given_by(archive, set, &served, baselines, port) {
        Ok(given) => home_with(archive, given, served, port),
        Err(stop) => {
            drop(served);
            Err(stop)
        }
    }
}

/// The home of a port in the registry that serves it. `Fault` says that none does, that its
/// baseline has nothing for the port, or which of the two files is wrong. The baseline file isn't
/// looked at where the root manifest sets a version, nor the versions file where nothing is given.
pub fn registry_home<T: Tree>(
    archive: &mut Archive<T>,
    layout: &Layout,
    baselines: &mut Baselines,
    port: &PortName,
) -> Result<Home, Stop<Wrong>>
    ensures { Finds wrong_view home_view result (registry_home (layout_view layout.now) port.now)
        (λ f. registry_paths (layout_view layout.now) f port.now)
        (AreBaselines (notes_of baselines.old)) (AreBaselines (notes_of baselines.new))
        (held T.state archive.old) (held T.state archive.new) }
{
    let served = served_for(archive.alloc(), layout, port)?;
    let set = layout.overrides.ask_for(port);
    served_home(archive, set, served, baselines, port)
}
