//! Whether a file may stand at a path beside others: no other stands there, above it or below it.
ghost use Rattle.std.specs.Prelude.{◌≡◌, ◌++◌, ◌∷◌, [], List, IfOk, OnOk, not, true};
ghost use Rattle.std.specs.List.{list_any};
ghost use Rattle.vk_spec.specs.Paths.{Path};
ghost use Rattle.vk_recipe.specs.Builds.{begins, overlap};
ghost use Rattle.vk_recipe.specs.Destinations.{AreTaken};

use std::collections::BTreeSet;
use std::ops::Bound;
use vk_base::{Memory, TreePath};

// Whether a path begins one of these; the first one that isn't before it is one, if any is.
fn begins_any<'a>(taken: &BTreeSet<&'a TreePath>, path: &'a TreePath) -> bool
    ensures { (paths : List Path) → AreTaken paths taken.now.keys
        → result ≡ list_any (begins path.now) paths }
{
    let from = (Bound::Included(path), Bound::Unbounded);
    match taken.range(from).next() {
        Some(first) => path.begins(first),
        None => false,
    }
}

// Whether one of these begins a path; the last one that isn't after it is one, if any is.
fn any_begins<'a>(taken: &BTreeSet<&'a TreePath>, path: &'a TreePath) -> bool
    ensures { (paths : List Path) → AreTaken paths taken.now.keys
        → result ≡ list_any (λ p. begins p path.now) paths }
{
    let upto = (Bound::Unbounded, Bound::Included(path));
    match taken.range(upto).next_back() {
        Some(last) => last.begins(path),
        None => false,
    }
}

/// Takes a path for a file. It answers `false` exactly where the path equals, begins or is begun by
/// one that was taken before. Looks at two of those alone.
pub fn take<'a>(taken: &mut BTreeSet<&'a TreePath>, path: &'a TreePath) -> Result<bool, Memory>
    ensures free { (paths : List Path) → AreTaken paths taken.old.keys
        → IfOk result (λ new. new ≡ not (list_any (overlap path.now) paths)) }
    ensures taken { (paths : List Path) → AreTaken paths taken.old.keys
        → IfOk result (λ new. new ≡ true → AreTaken (paths ++ path.now ∷ []) taken.new.keys) }
{
    if begins_any(taken, path) || any_begins(taken, path) {
        return Ok(false);
    }
    taken.insert(path)?;
    Ok(true)
}
