//! Opening a project.
ghost use Rattle.std.specs.Prelude.{◌≡◌, ◌∷◌, [], IfOk, Ok, Some, false, map, option_map};
ghost use Rattle.vk_spec.specs.Reading.{Gives};
ghost use Rattle.vk_base.specs.Stops.{fault_seen, has_failed};
ghost use Rattle.vk_config.specs.Configs as plain;
ghost use Rattle.vk_files.specs.Views.{held};
ghost use Rattle.vk_files.specs.Finds.{ReadsFrom};
ghost use Rattle.vk_config.specs.Views.{config_view};
ghost use Rattle.vk_model.specs.EarlyViews.{early_view};
ghost use Rattle.vk_model.specs.SettingViews.{setting_view, instance_view};
ghost use Rattle.vk_model.specs.Views.{manifest_view, override_view};
ghost use Rattle.vk_opening.specs.Projects.{manifest_path};
ghost use Rattle.vk_opening.specs.Roots.{root_in, early_at};
ghost use Rattle.vk_opening.specs.Openings.{opened_of, opened_with, triplets_of, overlays_of};
ghost use Rattle.vk_opening.specs.Openings.{after_root, after_config, opening_with, stored};
ghost use Rattle.vk_opening.specs.Asked.{triplets_asked, overlays_asked};
ghost use Rattle.vk_opening.specs.Asked.{found_paths, rest_paths, opening_paths};
ghost use Rattle.vk_opening.specs.Asked.{paths_with, stored_paths};
ghost use Rattle.vk_opening.specs.Opened.{ListsOwnOff, Opens};
ghost use Rattle.vk_opening.specs.Views.{root_view, triplets_view, overlay_view};
ghost use Rattle.vk_opening.specs.OpeningViews.{opening_view, opening_found, Answers};
ghost use Rattle.vk_resolution.specs.RootLaws.{with_off};

use crate::configurations::read_configuration;
use crate::layouts::{Layout, Overlay};
use crate::overlays::read_overlays;
use crate::projects::{folders, manifest_path};
use crate::roots::{Root, RootFile};
use crate::stores::check_store;
use crate::triplet_files::{Triplets, read_triplets};
use std::alloc::Global;
use std::mem::replace;
use vk_base::{FeatureName, Instance, List, Memory, Outage, Stop, TreePath};
use vk_config::Config;
use vk_files::Archive;
use vk_model::{Early, Manifest, Project, Setting, Store};
use vk_root::{Overrides, off_list};
use vk_tree::Tree;

/// What the early files of a project give.
#[derive(Drop)]
pub enum Opened {
    /// What a plan is made under, and what is known of the project before any port is looked at.
    Ready { setting: Setting, layout: Layout },
    /// The first early line.
    Refused(Early),
}

// A setting, whatever is off in it, and a layout.
#[derive(Drop)]
struct Opening {
    setting: Setting,
    layout: Layout,
}

// What a setting and a layout take from the words and from the root manifest.
#[derive(Drop)]
struct Own {
    folder: TreePath,
    overrides: Overrides,
    features: List<FeatureName>,
}

// The same, with the triplets and the overlays.
#[derive(Drop)]
struct Found {
    own: Own,
    triplets: Triplets,
    overlays: List<Overlay>,
}

fn read_root<T: Tree>(archive: &mut Archive<T>, folder: &TreePath) -> Result<Root, Stop<Early>>
    ensures { ReadsFrom early_view root_view result (early_at root_in (manifest_path folder.now))
        (λ f. manifest_path folder.now ∷ []) (held T.state archive.old) (held T.state archive.new) }
{
    let path = manifest_path(archive.alloc(), folder)?;
    archive.read(&path, &RootFile)
}

// The two triplets, in the folders of the words and of the configuration.
fn triplets_of<T: Tree>(
    archive: &mut Archive<T>,
    project: &Project,
    config: &Config,
) -> Result<Triplets, Stop<Early>>
    ensures { ReadsFrom early_view triplets_view result
        (triplets_of project.now (config_view config.now))
        (triplets_asked project.now (config_view config.now))
        (held T.state archive.old) (held T.state archive.new) }
{
    let configured = config.overlay_triplets.as_slice();
    let folders = folders(
        archive.alloc(),
        &project.folder,
        project.overlay_triplets.as_slice(),
        configured,
    )?;
    read_triplets(archive, &project.target, &project.host, folders.as_slice())
}

// The overlays, those of the words and then those of the configuration.
fn overlays_of<T: Tree>(
    archive: &mut Archive<T>,
    project: &Project,
    config: &Config,
) -> Result<List<Overlay>, Stop<Early>>
    ensures { ReadsFrom early_view (λ l. map overlay_view l) result
        (overlays_of project.now (config_view config.now))
        (overlays_asked project.now (config_view config.now))
        (held T.state archive.old) (held T.state archive.new) }
{
    let configured = config.overlay_ports.as_slice();
    let words = project.overlay_ports.as_slice();
    let folders = folders(archive.alloc(), &project.folder, words, configured)?;
    read_overlays(archive, folders)
}

// What the setting and the layout take from words and root manifest.
fn own_of(alloc: Global, project: &Project, root: &Manifest) -> Result<Own, Memory>
    ensures folder { IfOk result (λ o. o.folder ≡ project.now.folder) }
    ensures overrides { IfOk result
        (λ o. o.overrides ≡ map override_view root.now.overrides) }
    ensures features { IfOk result (λ o. o.features ≡ project.now.features) }
{
    Ok(Own {
        folder: project.folder.clone()?,
        overrides: Overrides::of(alloc, &root.overrides)?,
        features: project.features.clone()?,
    })
}

// The triplets and the overlays, with what else is taken.
fn found_with(
    alloc: Global,
    project: &Project,
    root: &Manifest,
    triplets: Triplets,
    overlays: List<Overlay>,
) -> Result<Found, Stop<Early>>
    ensures given { (config : plain.Config) →
        Gives (opening_found project.now (manifest_view root.now) config) (fault_seen early_view)
        result (Ok (opening_with project.now (manifest_view root.now) config
        (triplets_view triplets) (map overlay_view overlays))) }
    ensures calm { has_failed result ≡ false }
{
    match own_of(alloc, project, root) {
        Ok(own) => Ok(Found {
            own,
            triplets,
            overlays,
        }),
        Err(memory) => {
            drop(triplets);
            drop(overlays);
            Err(Stop::Memory(memory))
        }
    }
}

// The triplets and the overlays.
fn read_found<T: Tree>(
    archive: &mut Archive<T>,
    project: &Project,
    root: &Manifest,
    config: &Config,
) -> Result<Found, Stop<Early>>
    ensures { ReadsFrom early_view
        (opening_found project.now (manifest_view root.now) (config_view config.now)) result
        (after_config project.now (manifest_view root.now) (config_view config.now))
        (found_paths project.now (config_view config.now))
        (held T.state archive.old) (held T.state archive.new) }
{
    let triplets = triplets_of(archive, project, config)?;
    match overlays_of(archive, project, config) {
        Ok(overlays) => found_with(archive.alloc(), project, root, triplets, overlays),
        Err(stop) => {
            drop(triplets);
            Err(stop)
        }
    }
}

// All that was read, put together.
fn put_together(
    alloc: Global,
    project: &Project,
    root: Manifest,
    config: Config,
    found: Found,
) -> Opening
    ensures { opening_view result
        ≡ opening_found project.now (manifest_view root) (config_view config) found }
{
    let Found {
        own,
        triplets,
        overlays,
    } = found;
    Opening {
        layout: Layout {
            folder: own.folder,
            config,
            overlays,
            overrides: own.overrides,
        },
        setting: Setting {
            root,
            target: triplets.target,
            host: triplets.host,
            features: own.features,
            defaults: project.defaults,
            off: List::new(alloc),
            max_facts: project.max_facts,
        },
    }
}

// The triplets and the overlays under a configuration, and all put together.
fn read_configured<T: Tree>(
    archive: &mut Archive<T>,
    project: &Project,
    root: Manifest,
    config: Config,
) -> Result<Opening, Stop<Early>>
    ensures { ReadsFrom early_view opening_view result
        (after_config project.now (manifest_view root) (config_view config))
        (found_paths project.now (config_view config))
        (held T.state archive.old) (held T.state archive.new) }
{
    match read_found(archive, project, &root, &config) {
        Ok(found) => Ok(put_together(archive.alloc(), project, root, config, found)),
        Err(stop) => {
            drop(root);
            drop(config);
            Err(stop)
        }
    }
}

// The configuration, the triplets and the overlays, and all put together.
fn read_rest<T: Tree>(
    archive: &mut Archive<T>,
    project: &Project,
    root: Root,
) -> Result<Opening, Stop<Early>>
    ensures { ReadsFrom early_view opening_view result (after_root project.now (root_view root))
        (rest_paths project.now (root_view root))
        (held T.state archive.old) (held T.state archive.new) }
{
    let Root {
        manifest,
        configuration,
    } = root;
    match read_configuration(archive, &project.folder, configuration) {
        Ok(config) => read_configured(archive, project, manifest, config),
        Err(stop) => {
            drop(manifest);
            Err(stop)
        }
    }
}

fn read_opening<T: Tree>(
    archive: &mut Archive<T>,
    project: &Project,
) -> Result<Opening, Stop<Early>>
    ensures { ReadsFrom early_view opening_view result (opened_of project.now)
        (opening_paths project.now) (held T.state archive.old) (held T.state archive.new) }
{
    let root = read_root(archive, &project.folder)?;
    read_rest(archive, project, root)
}

// What was opened, where packages can be kept in the store.
fn stored<T: Tree>(
    archive: &mut Archive<T>,
    project: &Project,
    store: &Store,
    opening: Opening,
) -> Result<Opening, Stop<Early>>
    ensures { ReadsFrom early_view opening_view result
        (stored project.now store.now (opening_view opening))
        (stored_paths project.now store.now (config_view opening.layout.config))
        (held T.state archive.old) (held T.state archive.new) }
{
    match check_store(archive, project, store, &opening.layout.config) {
        Ok(()) => Ok(opening),
        Err(stop) => {
            drop(opening);
            Err(stop)
        }
    }
}

// What was opened, and then the store.
fn read_stored<T: Tree>(
    archive: &mut Archive<T>,
    project: &Project,
    store: &Store,
) -> Result<Opening, Stop<Early>>
    ensures { ReadsFrom early_view opening_view result (opened_with project.now (Some store.now))
        (paths_with project.now (Some store.now))
        (held T.state archive.old) (held T.state archive.new) }
{
    let opening = read_opening(archive, project)?;
    stored(archive, project, store, opening)
}

fn read_with<T: Tree>(
    archive: &mut Archive<T>,
    project: &Project,
    store: Option<&Store>,
) -> Result<Opening, Stop<Early>>
    ensures { ReadsFrom early_view opening_view result
        (opened_with project.now (option_map (λ s. s.now) store.entry))
        (paths_with project.now (option_map (λ s. s.now) store.entry))
        (held T.state archive.old) (held T.state archive.new) }
{
    match store {
        Some(store) => read_stored(archive, project, store),
        None => read_opening(archive, project),
    }
}

fn off_of(alloc: Global, setting: &Setting) -> Result<List<Instance>, Memory>
    ensures { IfOk result
        (λ off. ListsOwnOff (with_off (setting_view setting.now) (map instance_view off))) }
{
    off_list(
        alloc,
        &setting.root,
        &setting.target,
        &setting.host,
        &setting.features,
        setting.defaults,
    )
}

// An opening with what is off in it.
fn ready(alloc: Global, opening: Opening) -> Result<Opened, Outage>
    ensures { Answers (Ok opening) result }
{
    let Opening {
        mut setting,
        layout,
    } = opening;
    match off_of(alloc, &setting) {
        Ok(off) => {
            drop(replace(&mut setting.off, off));
            Ok(Opened::Ready { setting, layout })
        }
        Err(memory) => {
            drop(setting);
            drop(layout);
            Err(Outage::Memory(memory))
        }
    }
}

fn answer(alloc: Global, read: Result<Opening, Stop<Early>>) -> Result<Opened, Outage>
    ensures { Answers read result }
{
    match read {
        Ok(opening) => ready(alloc, opening),
        Err(Stop::Fault(early)) => Ok(Opened::Refused(early)),
        Err(Stop::Failed) => Err(Outage::Failed),
        Err(Stop::Memory(memory)) => Err(Outage::Memory(memory)),
    }
}

/// Opens a project: reads its root manifest, its configuration, its triplets and its overlays, each
/// path once, and then looks where packages are to be kept, if a store is named. The setting lists
/// the instances whose default features the root turns off. `Refused` exactly where files or store
/// have a fault, with the first in this order; `Failed` exactly where a call of the tree failed.
pub fn open<T: Tree>(
    archive: &mut Archive<T>,
    project: &Project,
    store: Option<&Store>,
) -> Result<Opened, Outage>
    ensures { Opens project.now (option_map (λ s. s.now) store.entry) result
        (held T.state archive.old) (held T.state archive.new) }
{
    let read = read_with(archive, project, store);
    answer(archive.alloc(), read)
}
