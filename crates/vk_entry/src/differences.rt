//! How the files that were found differ from those that are listed.
ghost use Rattle.std.specs.Prelude.{◌≡◌, IfOk, map};
ghost use Rattle.std.specs.List.Sorted.{IsPermutation, IsSorted};
ghost use Rattle.vk_spec.specs.Paths.{path_cmp};
ghost use Rattle.vk_entry.specs.Differences.{difference_of, has_outside};

use std::alloc::Global;
use std::cmp::Ordering;
use vk_base::{Memory, TreePath};

/// How found files differ from listed ones.
#[derive(Clone, Copy, Debug, PartialEq, Eq)]
pub enum Difference {
    /// A found file isn't listed.
    Extra,
    /// Each found file is listed, and a listed one wasn't found.
    Missing,
}

// The paths, in their order.
fn in_order(alloc: Global, paths: &[TreePath]) -> Result<Vec<&TreePath>, Memory>
    ensures moved { IfOk result (λ refs. IsPermutation paths.now (map (λ r. r.now) refs.items)) }
    ensures order { IfOk result (λ refs. IsSorted path_cmp (map (λ r. r.now) refs.items)) }
{
    let mut refs = Vec::new(alloc);
    for path in paths {
        refs.push(path)?;
    }
    refs.sort_unstable();
    Ok(refs)
}

// Whether one of the paths isn't among the others, in one pass over both.
fn has_outside(paths: &[&TreePath], others: &[&TreePath]) -> bool
    requires paths { IsSorted path_cmp (map (λ r. r.now) paths.now) }
    requires others { IsSorted path_cmp (map (λ r. r.now) others.now) }
    ensures { result ≡ has_outside (map (λ r. r.now) paths.now) (map (λ r. r.now) others.now) }
{
    let (mut at, mut other) = (0, 0);
    while at < paths.len() && other < others.len() {
        match paths[at].cmp(others[other]) {
            Ordering::Less => return true,
            Ordering::Equal => at += 1,
            Ordering::Greater => other += 1,
        }
    }
    at < paths.len()
}

// How the paths differ, where both are in order.
fn compare(found: &[&TreePath], listed: &[&TreePath]) -> Option<Difference>
    requires found { IsSorted path_cmp (map (λ r. r.now) found.now) }
    requires listed { IsSorted path_cmp (map (λ r. r.now) listed.now) }
    ensures { result ≡ difference_of (map (λ r. r.now) found.now) (map (λ r. r.now) listed.now) }
{
    if has_outside(found, listed) {
        return Some(Difference::Extra);
    }
    if has_outside(listed, found) {
        return Some(Difference::Missing);
    }
    None
}

/// How the paths of files that were found differ from those that are listed, in whatever order
/// both stand: `Extra` exactly where a found one isn't listed, `Missing` exactly where all found
/// ones are listed and a listed one wasn't found. `None` exactly where both are the same paths.
pub fn find_difference(
    alloc: Global,
    found: &[TreePath],
    listed: &[TreePath],
) -> Result<Option<Difference>, Memory>
    ensures { IfOk result (λ d. d ≡ difference_of found.now listed.now) }
{
    let found = in_order(alloc, found)?;
    let listed = in_order(alloc, listed)?;
    Ok(compare(found.as_slice(), listed.as_slice()))
}
