//! Files in a map, some of them moved to other paths.
ghost use Rattle.std.specs.Prelude.{IfOk};
ghost use Rattle.std.specs.FinMap as map;
ghost use Rattle.vk_spec.specs.Standing.{disk_of, Stands};
ghost use Rattle.vk_spec.specs.Calls.{CanMake, Moves, rename_of};
ghost use Rattle.vk_tree.specs.Moving.{IsMovedTo};

use crate::listing::known;
use std::alloc::{AllocError, AllocFailed, Global};
use std::collections::BTreeMap;
use vk_base::{List, Memory, TreePath};

/// A copy of the files in which what stood at or below one path stands at or below another.
pub(crate) fn moved_in(
    alloc: Global,
    files: &BTreeMap<TreePath, List<u8>>,
    from: &TreePath,
    to: &TreePath,
) -> Result<BTreeMap<TreePath, List<u8>>, Memory>
    requires can { CanMake (rename_of from.now to.now)
        (disk_of (map.from_entries files.now.entries)) }
    requires free { Stands (disk_of (map.from_entries files.now.entries)) to.now → ⊥ }
    ensures { IfOk result (λ moved. Moves from.now to.now
        (disk_of (map.from_entries files.now.entries))
        (disk_of (map.from_entries moved.entries))) }
{
    let mut moved: BTreeMap<TreePath, List<u8>> = BTreeMap::new(alloc);
    let mut left = files.iter();
    while let Some((path, bytes)) = left.next_back() {
        let bytes = bytes.clone()?;
        let path = moved_path(alloc, path, from, to)?;
        drop(moved.insert(path, bytes)?);
    }
    Ok(moved)
}

// Where the file at a path then stands.
fn moved_path(
    alloc: Global,
    path: &TreePath,
    from: &TreePath,
    to: &TreePath,
) -> Result<TreePath, Memory>
    ensures { IfOk result (IsMovedTo from.now to.now path.now) }
{
    known(to);
    match path.relative_to(alloc, from)? {
        Some(below) => to.join(alloc, &below),
        None => Ok(path.clone()?),
    }
}
