//! The paths that are read, in their order.
ghost use Rattle.std.specs.Prelude.{◌≡◌, [], IfOk, OnOk, List, reverse};
ghost use Rattle.std.specs.List.{Contains};
ghost use Rattle.vk_spec.specs.Paths.{Path};
ghost use Rattle.vk_base.specs.Paths.{IsPath};
ghost use Rattle.vk_gather.specs.FilesToGather.{Follow};
ghost use Rattle.vk_gather.specs.Gathers.{seen_in};
ghost use Rattle.vk_gather.specs.EachOnce.{each_once, is_first, put_first};

use std::alloc::Global;
use vk_base::{List, Memory, TreePath};
use vk_walk::{in_order_of_texts, seen_from};

/// Tells a caller what every path keeps.
pub(crate) fn known(path: &TreePath)
    ensures { IsPath path.now }
{
    let _ = path.parts();
}

// Whether the last one has the text of a path.
fn is_last(todo: &[TreePath], path: &TreePath) -> bool
    ensures { result ≡ is_first path.now (reverse todo.now) }
{
    match todo.last() {
        Some(last) => path.cmp_text(last).is_eq(),
        None => false,
    }
}

// Puts a path at the end, unless the last one has its text.
fn push_once(todo: &mut List<TreePath>, path: TreePath) -> Result<(), Memory>
    ensures put { OnOk result (reverse todo.new ≡ put_first path (reverse todo.old)) }
    ensures path { IsPath path }
{
    known(&path);
    if is_last(todo.as_slice(), &path) {
        drop(path);
        return Ok(());
    }
    todo.push(path)?;
    Ok(())
}

// Each path once, the first one last.
fn turned(alloc: Global, paths: List<TreePath>) -> Result<List<TreePath>, Memory>
    ensures once { IfOk result (λ todo. reverse todo ≡ each_once paths) }
    ensures paths { IfOk result (λ todo. (p : Path) → Contains paths p → IsPath p) }
{
    let mut todo = List::with_capacity(alloc, paths.len())?;
    let mut paths = paths.into_vec();
    while let Some(path) = paths.pop() {
        push_once(&mut todo, path)?;
    }
    Ok(todo)
}

/// The paths that a folder begins, as they are seen from it, in the order of their texts, the first
/// one last.
pub(crate) fn seen_in(
    alloc: Global,
    folder: &TreePath,
    found: &[TreePath],
) -> Result<List<TreePath>, Memory>
    ensures seen { IfOk result (λ todo. reverse todo ≡ seen_in folder.now found.now) }
    ensures follow { IfOk result (λ todo. Follow [] (reverse todo)) }
{
    let seen = seen_from(alloc, folder, found)?;
    turned(alloc, in_order_of_texts(seen))
}
