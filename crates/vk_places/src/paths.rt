//! A path's parts below another path.
ghost use Rattle.std.specs.Prelude.{◌≡◌, ◌++◌, IfOk};
ghost use Rattle.vk_base.specs.Paths.{IsPath, parts_of};

use std::alloc::Global;
use vk_base::{Memory, TreePath};

// Tells a caller what every path keeps.
fn known(path: &TreePath)
    ensures { IsPath path.now }
{
    let _ = path.parts();
}

/// The path below a folder that has the parts of another path besides.
pub(crate) fn below(alloc: Global, folder: &TreePath, path: &TreePath) -> Result<TreePath, Memory>
    ensures { IfOk result (λ p. p ≡ folder.now ++ parts_of path.now) }
{
    known(folder);
    known(path);
    let start = path.prefix(alloc, 0)?;
    match path.relative_to(alloc, &start)? {
        Some(seen) => folder.join(alloc, &seen),
        None => unreachable!(),
    }
}
