//! A folder's entries, from files in the order of their paths.
ghost use Rattle.std.specs.Prelude.{◌≡◌, ◌↔◌, ◌++◌, ◌∷◌, [], None, false, true, drop};
ghost use Rattle.std.specs.Prelude.{IfSome, IfOk, IsTrue, OnOk};
ghost use Rattle.std.specs.List.{All};
ghost use Rattle.std.specs.FinMap as map;
ghost use Rattle.std.specs.declared.cmp.Ordering.TheVariants.{Less};
ghost use Rattle.vk_spec.specs.Paths.{Path, path_cmp, Begins};
ghost use Rattle.vk_spec.specs.Standing.{disk_of};
ghost use Rattle.vk_spec.specs.Calls.{Says, NoLonger, list_of, is_failed};
ghost use Rattle.vk_base.specs.Paths.{IsPath, is_part};
ghost use Rattle.vk_tree.specs.Answers.{list_answer, entries_of};
ghost use Rattle.vk_tree.specs.Listing.{Added, IsLastName, is_more};

use crate::trees::{ListFault, Listed};
use std::alloc::{AllocError, AllocFailed, Global};
use std::collections::BTreeMap;
use std::ops::Bound;
use vk_base::{List, PathParts, Stop, Text, TreePath};

// The most entries of one folder.
const MOST_ENTRIES: usize = 100_000;

/// The entries of a folder, found in the files after it.
pub(crate) fn list_in(
    alloc: Global,
    files: &BTreeMap<TreePath, List<u8>>,
    dir: &TreePath,
) -> Result<List<Listed>, Stop<ListFault>>
    ensures listed { Says (list_of dir.now) (list_answer result)
        (disk_of (map.from_entries files.now.entries)) }
    ensures small { NoLonger 100000 (list_answer result) }
    ensures parts { IfOk result (All (λ l. IsTrue (is_part l.name))) }
    ensures calm { is_failed (list_answer result) ≡ false }
{
    let mut found: List<Listed> = List::new(alloc);
    let after = (Bound::Excluded(dir), Bound::Unbounded);
    for (path, _) in files.range(after) {
        let Some((name, folder)) = name_below(dir, path) else {
            break;
        };
        add(alloc, MOST_ENTRIES, &mut found, name, folder)?;
    }
    if found.is_empty() {
        return Err(Stop::Fault(ListFault::Missing));
    }
    Ok(found)
}

// The name in a folder at or below which a path lies, and whether it lies below; `None` exactly
// where the folder doesn't begin the path.
fn name_below<'a>(dir: &TreePath, path: &'a TreePath) -> Option<(&'a str, bool)>
    requires { path_cmp dir.now path.now ≡ Less }
    ensures some { IfSome result (λ below. (more : Path)
        × (path.now ≡ dir.now ++ below.0.now ∷ more) × (below.1 ≡ is_more more)) }
    ensures part { IfSome result (λ below. IsTrue (is_part below.0.now)) }
    ensures none { result ≡ None → Begins dir.now path.now → ⊥ }
{
    known(dir);
    if !dir.begins(path) {
        return None;
    }
    let mut parts = parts_after(path.parts(), dir.part_count());
    let name = parts.next()?;
    Some((name, parts.next().is_some()))
}

/// Tells a caller what every path keeps.
pub(crate) fn known(path: &TreePath)
    ensures { IsPath path.now }
{
    let _ = path.parts();
}

// The parts that are left after so many.
fn parts_after(parts: PathParts<'_>, count: usize) -> PathParts<'_>
    ensures { result ≡ drop count parts.entry }
{
    let mut left = parts;
    for _ in 0..count {
        let _ = left.next();
    }
    left
}

// Adds an entry that isn't the last one, unless there are as many as may be.
fn add(
    alloc: Global,
    most: usize,
    found: &mut List<Listed>,
    name: &str,
    folder: bool,
) -> Result<(), Stop<ListFault>>
    requires part { IsTrue (is_part name.now) }
    requires parts { All (λ l. IsTrue (is_part l.name)) found.old }
    ensures added { Added most (entries_of found.old) (record { name = name.now; folder = folder })
        result (entries_of found.new) }
    ensures parts { OnOk result (All (λ l. IsTrue (is_part l.name)) found.new) }
{
    if is_last(found.as_slice(), name) {
        return Ok(());
    }
    if found.len() >= most {
        return Err(Stop::Fault(ListFault::Many));
    }
    let name = Text::from_str(alloc, name)?;
    found.push(Listed { name, folder })?;
    Ok(())
}

// Whether the name is that of the last entry.
fn is_last(found: &[Listed], name: &str) -> bool
    ensures { IsTrue result ↔ IsLastName (entries_of found.now) name.now }
{
    match found.last() {
        Some(last) => last.name.is(name),
        None => false,
    }
}
