//! Where the files of a project stand.
ghost use Rattle.std.specs.Prelude.{◌≡◌, ◌++◌, IfOk, OnOk, true, codes, map};
ghost use Rattle.vk_base.specs.Paths.{is_part, joined};
ghost use Rattle.vk_opening.specs.Projects.{manifest_path, config_path, triplet_path, folders_of};

use std::alloc::Global;
use vk_base::{List, Memory, Text, TreePath, TripletName};

/// The manifest in a folder.
pub fn manifest_path(alloc: Global, folder: &TreePath) -> Result<TreePath, Memory>
    ensures { IfOk result (λ p. p ≡ manifest_path folder.now) }
{
    folder.child(alloc, "vcpkg.json")
}

/// The configuration in a folder.
pub fn config_path(alloc: Global, folder: &TreePath) -> Result<TreePath, Memory>
    ensures { IfOk result (λ p. p ≡ config_path folder.now) }
{
    folder.child(alloc, "vcpkg-configuration.json")
}

// The name of a triplet's file.
fn triplet_file(alloc: Global, name: &TripletName) -> Result<Text, Memory>
    ensures name { IfOk result (λ t. t ≡ name.now ++ codes ".cmake") }
    ensures part { IfOk result (λ t. is_part t ≡ true) }
{
    let mut file = Text::from_str(alloc, name.as_str())?;
    file.push_str(".cmake")?;
    Ok(file)
}

/// The file of a triplet in a folder of triplets.
pub fn triplet_path(
    alloc: Global,
    name: &TripletName,
    folder: &TreePath,
) -> Result<TreePath, Memory>
    ensures { IfOk result (λ p. p ≡ triplet_path name.now folder.now) }
{
    let file = triplet_file(alloc, name)?;
    folder.child(alloc, file.as_str())
}

/// A path that is taken from a folder. One with more steps up than 32 bits count is told as want of
/// memory.
pub fn from_folder(alloc: Global, folder: &TreePath, path: &TreePath) -> Result<TreePath, Memory>
    ensures { IfOk result (λ p. p ≡ joined folder.now path.now) }
{
    match folder.steps_up().checked_add(path.steps_up()) {
        Some(_) => folder.join(alloc, path),
        None => Err(Memory::without_allocation()),
    }
}

// Puts the configuration's folders at the end.
fn push_joined(
    alloc: Global,
    folders: &mut List<TreePath>,
    project: &TreePath,
    configured: &[TreePath],
) -> Result<(), Memory>
    ensures { OnOk result (folders.new ≡ folders.old ++ map (joined project.now) configured.now) }
{
    for path in configured {
        folders.push(from_folder(alloc, project, path)?)?;
    }
    Ok(())
}

// Puts the folders of the words at the end.
fn push_named(folders: &mut List<TreePath>, words: &[TreePath]) -> Result<(), Memory>
    ensures { OnOk result (folders.new ≡ folders.old ++ words.now) }
{
    for path in words {
        folders.push(path.clone()?)?;
    }
    Ok(())
}

/// Puts the folders that the words name at the end, and then those of the configuration.
pub fn push_folders(
    alloc: Global,
    folders: &mut List<TreePath>,
    project: &TreePath,
    words: &[TreePath],
    configured: &[TreePath],
) -> Result<(), Memory>
    ensures { OnOk result
        (folders.new ≡ folders.old ++ folders_of project.now words.now configured.now) }
{
    push_named(folders, words)?;
    push_joined(alloc, folders, project, configured)
}

/// The folders that the words name, and then those of the configuration.
pub fn folders(
    alloc: Global,
    project: &TreePath,
    words: &[TreePath],
    configured: &[TreePath],
) -> Result<List<TreePath>, Memory>
    ensures { IfOk result (λ l. l ≡ folders_of project.now words.now configured.now) }
{
    let mut folders = List::new(alloc);
    push_folders(alloc, &mut folders, project, words, configured)?;
    Ok(folders)
}
