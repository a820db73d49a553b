//! Where packages are installed and kept, which is looked at before any port is.
ghost use Rattle.std.specs.Prelude.{◌≡◌, ◌++◌, ◌∷◌, [], IfOk, IsTrue, OnOk, false, flat_map};
ghost use Rattle.std.specs.Prelude.{option_map, option_to_list};
ghost use Rattle.std.specs.List.{find};
ghost use Rattle.vk_spec.specs.Earlies as early;
ghost use Rattle.vk_spec.specs.Reading.{Gives};
ghost use Rattle.vk_base.specs.Paths.{is_part, overlaps};
ghost use Rattle.vk_base.specs.Stops.{fault_seen, has_failed};
ghost use Rattle.vk_config.specs.Views.{config_view, source_view};
ghost use Rattle.vk_model.specs.EarlyViews.{early_view};
ghost use Rattle.vk_files.specs.Readings.{is_at};
ghost use Rattle.vk_files.specs.Views.{held};
ghost use Rattle.vk_files.specs.Within.{up_to_first};
ghost use Rattle.vk_files.specs.Finds.{ReadsFrom};
ghost use Rattle.vk_opening.specs.Asked.{stored_paths};
ghost use Rattle.vk_opening.specs.Stores.{apart, apart_by, apart_from, refused_if, unblocked};
ghost use Rattle.vk_opening.specs.Stores.{outer_folders, prefixes, source_folder, store_folders};
ghost use Rattle.vk_opening.specs.Stores.{stored_at};

use crate::projects::{from_folder, push_folders};
use std::alloc::Global;
use vk_base::{List, Memory, Stop, TreePath};
use vk_config::{Config, Registry, Source};
use vk_files::Archive;
use vk_model::{Early, Project, Store};
use vk_tree::Tree;

// The line of two folders.
fn overlap(first: &TreePath, second: &TreePath) -> Result<Early, Memory>
    ensures { IfOk result (λ line. early_view line ≡ early.overlap first.now second.now) }
{
    Ok(Early::Overlap {
        first: first.clone()?,
        second: second.clone()?,
    })
}

// That nothing is wrong with two folders, or else their line.
fn refused_if(wrong: bool, one: &TreePath, other: &TreePath) -> Result<(), Stop<Early>>
    ensures told { Gives (λ done. tt) (fault_seen early_view) result
        (refused_if wrong one.now other.now) }
    ensures calm { has_failed result ≡ false }
{
    if wrong {
        return Err(Stop::Fault(overlap(one, other)?));
    }
    Ok(())
}

fn first_overlap<'a>(folder: &TreePath, others: &'a [TreePath]) -> Option<&'a TreePath>
    ensures { option_map (λ other. other.now) result ≡ find (overlaps folder.now) others.now }
{
    others.iter().find(|other| folder.overlaps(other))
}

// That a folder overlaps none of these, or else its line with the first that it overlaps.
fn apart_from(folder: &TreePath, others: &[TreePath]) -> Result<(), Stop<Early>>
    ensures told { Gives (λ done. tt) (fault_seen early_view) result
        (apart_from folder.now others.now) }
    ensures calm { has_failed result ≡ false }
{
    match first_overlap(folder, others) {
        Some(other) => Err(Stop::Fault(overlap(folder, other)?)),
        None => Ok(()),
    }
}

// That the folders of a store are apart, from these too, and have no project in them.
#[tactic(auto, unfolding(crate::specs::Stores::apart_by))]
fn apart_by(project: &TreePath, store: &Store, folders: &[TreePath]) -> Result<(), Stop<Early>>
    ensures told { Gives (λ done. tt) (fault_seen early_view) result
        (apart_by project.now store.now folders.now) }
    ensures calm { has_failed result ≡ false }
{
    let Store {
        installed,
        cache,
        ..
    } = store;
    refused_if(installed.overlaps(cache), installed, cache)?;
    apart_from(installed, folders)?;
    apart_from(cache, folders)?;
    refused_if(installed.has_in_it(project), installed, project)?;
    refused_if(cache.has_in_it(project), cache, project)
}

// Puts the folder of a source at the end, if it is one of files.
fn push_source(
    alloc: Global,
    folders: &mut List<TreePath>,
    project: &TreePath,
    source: &Source,
) -> Result<(), Memory>
    ensures { OnOk result (folders.new
        ≡ folders.old ++ source_folder project.now (source_view source.now)) }
{
    match source {
        Source::Filesystem { path, .. } => Ok(folders.push(from_folder(alloc, project, path)?)?),
        Source::Git | Source::Builtin | Source::Artifact => Ok(()),
    }
}

// Puts the folders of registries at the end.
fn push_registries(
    alloc: Global,
    folders: &mut List<TreePath>,
    project: &TreePath,
    registries: &[Registry],
) -> Result<(), Memory>
    ensures { OnOk result (folders.new ≡ folders.old
        ++ flat_map (λ r. source_folder project.now (source_view r.source)) registries.now) }
{
    for registry in registries {
        push_source(alloc, folders, project, &registry.source)?;
    }
    Ok(())
}

// Puts the folder of the default registry at the end, if there is one of files.
fn push_default(
    alloc: Global,
    folders: &mut List<TreePath>,
    project: &TreePath,
    default: &Option<Source>,
) -> Result<(), Memory>
    ensures { OnOk result (folders.new ≡ folders.old ++ flat_map (source_folder project.now)
        (option_to_list (option_map source_view default.now))) }
{
    match default {
        Some(source) => push_source(alloc, folders, project, source),
        None => Ok(()),
    }
}

// Where else a project has files.
fn outer_folders(
    alloc: Global,
    project: &Project,
    config: &Config,
) -> Result<List<TreePath>, Memory>
    ensures { IfOk result
        (λ folders. folders ≡ outer_folders project.now (config_view config.now)) }
{
    let mut outer = List::new(alloc);
    let folder = &project.folder;
    push_registries(alloc, &mut outer, folder, config.registries.as_slice())?;
    push_default(alloc, &mut outer, folder, &config.default)?;
    let (words, configured) = (&project.overlay_ports, &config.overlay_ports);
    push_folders(
        alloc,
        &mut outer,
        folder,
        words.as_slice(),
        configured.as_slice(),
    )?;
    let (words, configured) = (&project.overlay_triplets, &config.overlay_triplets);
    push_folders(
        alloc,
        &mut outer,
        folder,
        words.as_slice(),
        configured.as_slice(),
    )?;
    Ok(outer)
}

fn apart(
    alloc: Global,
    project: &Project,
    store: &Store,
    config: &Config,
) -> Result<(), Stop<Early>>
    ensures told { Gives (λ done. tt) (fault_seen early_view) result
        (apart project.now store.now (config_view config.now)) }
    ensures calm { has_failed result ≡ false }
{
    let folders = outer_folders(alloc, project, config)?;
    apart_by(&project.folder, store, folders.as_slice())
}

// Puts the prefixes of a path at the end, from the shortest to itself.
fn push_prefixes(alloc: Global, places: &mut List<TreePath>, path: &TreePath) -> Result<(), Memory>
    ensures { OnOk result (places.new ≡ places.old ++ prefixes path.now) }
{
    for count in 0..path.part_count() {
        places.push(path.prefix(alloc, count)?)?;
    }
    places.push(path.clone()?)?;
    Ok(())
}

// Puts a folder in another at the end.
fn push_child(
    alloc: Global,
    places: &mut List<TreePath>,
    folder: &TreePath,
    name: &str,
) -> Result<(), Memory>
    requires { IsTrue (is_part name.now) }
    ensures { OnOk result (places.new ≡ places.old ++ (folder.now ++ name.now ∷ []) ∷ []) }
{
    Ok(places.push(folder.child(alloc, name)?)?)
}

// Where a store has to have folders.
fn store_folders(alloc: Global, store: &Store) -> Result<List<TreePath>, Memory>
    ensures { IfOk result (λ places. places ≡ store_folders store.now) }
{
    let mut places = List::new(alloc);
    push_prefixes(alloc, &mut places, &store.installed)?;
    push_prefixes(alloc, &mut places, &store.cache)?;
    push_child(alloc, &mut places, &store.cache, "abi2")?;
    push_child(alloc, &mut places, &store.cache, "tmp")?;
    push_child(alloc, &mut places, &store.cache, "damaged")?;
    Ok(places)
}

// The line of a file that is in the way.
fn blocked(path: &TreePath) -> Result<Early, Memory>
    ensures { IfOk result (λ line. early_view line ≡ early.blocked path.now) }
{
    Ok(Early::Blocked {
        path: path.clone()?,
    })
}

// That no file stands at these paths, or else the line of the first at which one does.
fn unblocked<T: Tree>(archive: &mut Archive<T>, places: &[TreePath]) -> Result<(), Stop<Early>>
    ensures { ReadsFrom early_view (λ done. tt) result
        (λ files. unblocked (find (is_at files) places.now))
        (λ files. up_to_first (is_at files) places.now)
        (held T.state archive.old) (held T.state archive.new) }
{
    match archive.first::<Early>(places)? {
        Some(path) => Err(Stop::Fault(blocked(path)?)),
        None => Ok(()),
    }
}

/// That packages can be installed and kept in these folders: they are apart from each other and
/// from all folders that the project names, have no project in them, and no file stands where they
/// need a folder. `Fault` has the first line that says otherwise.
pub fn check_store<T: Tree>(
    archive: &mut Archive<T>,
    project: &Project,
    store: &Store,
    config: &Config,
) -> Result<(), Stop<Early>>
    ensures { ReadsFrom early_view (λ done. tt) result
        (stored_at project.now store.now (config_view config.now))
        (stored_paths project.now store.now (config_view config.now))
        (held T.state archive.old) (held T.state archive.new) }
{
    apart(archive.alloc(), project, store, config)?;
    let places = store_folders(archive.alloc(), store)?;
    unblocked(archive, places.as_slice())
}
