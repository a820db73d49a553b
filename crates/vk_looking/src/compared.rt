//! The files that a walk found in an entry, and those that are to be there.
ghost use Rattle.std.specs.Prelude.{◌≡◌, ◌++◌, ◌∷◌, [], IfOk, OnOk, map};
ghost use Rattle.vk_entry.specs.ContentViews.{content_view};
ghost use Rattle.vk_entry.specs.Differences.{difference_of};
ghost use Rattle.vk_places.specs.Places.{contents_at, file_at, text_at};
ghost use Rattle.vk_look.specs.LookIs.{places_of};

use std::alloc::Global;
use vk_base::{List, Memory, TreePath};
use vk_entry::{ContentLine, Difference, find_difference};
use vk_places::{contents_in, file_in, text_in};

fn push_file(
    alloc: Global,
    folder: &TreePath,
    line: &ContentLine,
    places: &mut List<TreePath>,
) -> Result<(), Memory>
    ensures { OnOk result (places.new ≡ places.old ++ file_at folder.now line.now.path ∷ []) }
{
    places.push(file_in(alloc, folder, &line.path)?)?;
    Ok(())
}

fn push_own(alloc: Global, folder: &TreePath, places: &mut List<TreePath>) -> Result<(), Memory>
    requires { places.old ≡ [] }
    ensures { OnOk result (places.new ≡ text_at folder.now ∷ contents_at folder.now ∷ []) }
{
    places.push(text_in(alloc, folder)?)?;
    places.push(contents_in(alloc, folder)?)?;
    Ok(())
}

// Puts the places of an entry into an empty list.
fn push_places(
    alloc: Global,
    folder: &TreePath,
    lines: &[ContentLine],
    places: &mut List<TreePath>,
) -> Result<(), Memory>
    requires { places.old ≡ [] }
    ensures { OnOk result (places.new ≡ places_of folder.now (map content_view lines.now)) }
{
    push_own(alloc, folder, places)?;
    for line in lines {
        push_file(alloc, folder, line, places)?;
    }
    Ok(())
}

// Where an entry has its text, its contents list and the listed files.
fn places_of(
    alloc: Global,
    folder: &TreePath,
    lines: &[ContentLine],
) -> Result<List<TreePath>, Memory>
    ensures { IfOk result (λ places. places
        ≡ places_of folder.now (map content_view lines.now)) }
{
    let mut places = List::new(alloc);
    match push_places(alloc, folder, lines, &mut places) {
        Ok(()) => Ok(places),
        Err(memory) => {
            drop(places);
            Err(memory)
        }
    }
}

/// How the files that were found in an entry differ from those that are to be there.
pub(crate) fn compare(
    alloc: Global,
    folder: &TreePath,
    lines: &[ContentLine],
    found: &[TreePath],
) -> Result<Option<Difference>, Memory>
    ensures { IfOk result (λ how. how
        ≡ difference_of found.now (places_of folder.now (map content_view lines.now))) }
{
    let places = places_of(alloc, folder, lines)?;
    find_difference(alloc, found, places.as_slice())
}
