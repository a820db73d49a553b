//! The paths that files of packages have.
ghost use Rattle.std.specs.Prelude.{◌≡◌};
ghost use Rattle.vk_spec.specs.Paths.{Path};
ghost use Rattle.vk_spec.specs.Reading.{Gives};
ghost use Rattle.vk_base.specs.Stops.{fault_in};
ghost use Rattle.vk_recipe.specs.PackagePaths.{package_path_of, package_path_at};
ghost use Rattle.vk_recipe.specs.PackagePaths.{unless_outside};

use std::alloc::Global;
use vk_base::{TreePath, Unread};
use vk_entry::is_package_path;
use vk_fields::path_of;
use vk_json::{FileFault, Reader, Value, Why, text, wrong};

#[tactic(auto, using(crate::proofs::PathLemmas::tested))]
fn unless_outside(alloc: Global, path: TreePath) -> Result<TreePath, Unread<FileFault>>
    ensures { Gives (λ p. p) fault_in result (unless_outside path) }
{
    if is_package_path(&path) {
        return Ok(path);
    }
    Err(wrong(alloc, Why::Path))
}

#[tactic(auto, unfolding(crate::specs::PackagePaths::package_path_of))]
fn read_package_path(alloc: Global, text: &str) -> Result<TreePath, Unread<FileFault>>
    ensures { Gives (λ p. p) fault_in result (package_path_of text.now) }
{
    let path = path_of(alloc, text)?;
    unless_outside(alloc, path)
}

/// Reads a path of a package. The fault is `Path` where the text is none.
#[derive(Drop)]
pub struct PackagePathText;

impl Reader for PackagePathText {
    type Out = TreePath;

    ghost Plain = { Path };

    ghost plain = { λ path. path };

    ghost reads = { λ r. package_path_at };

    fn read(&self, alloc: Global, value: &Value) -> Result<TreePath, Unread<FileFault>> {
        read_package_path(alloc, text(alloc, value)?)
    }
}
