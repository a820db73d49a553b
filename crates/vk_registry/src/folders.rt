//! The folder of a port, which a versions file names from its registry on.
ghost use Rattle.std.specs.Prelude.{◌≡◌, option_map};
ghost use Rattle.vk_spec.specs.Reading.{Gives};
ghost use Rattle.vk_base.specs.Stops.{fault_in};
ghost use Rattle.vk_spec.specs.Paths.{Path};
ghost use Rattle.vk_spec.specs.Fronts.{after};
ghost use Rattle.vk_registry.specs.Folders.{unless_above, folder_of, folder_at};

use std::alloc::Global;
use vk_base::{TreePath, Unread};
use vk_fields::path_of;
use vk_json::{FileFault, Reader, Value, Why, text, wrong};

// What is left of a text after its first part, where it begins with that.
fn after<'a>(text: &'a str, front: &str) -> Option<&'a str>
    ensures { option_map (λ rest. rest.now) result ≡ after front.now text.now }
{
    text.strip_prefix(front)
}

// The path, unless it is rooted or has steps up.
fn unless_above(alloc: Global, path: TreePath) -> Result<TreePath, Unread<FileFault>>
    ensures { Gives (λ p. p) fault_in result (unless_above path) }
{
    if !path.is_rooted() && path.steps_up() == 0 {
        return Ok(path);
    }
    Err(wrong(alloc, Why::Path))
}

#[tactic(auto, unfolding(crate::specs::Folders::folder_of))]
fn read_folder(alloc: Global, text: &str) -> Result<TreePath, Unread<FileFault>>
    ensures { Gives (λ p. p) fault_in result (folder_of text.now) }
{
    let rest = after(text, "$/").ok_or(wrong(alloc, Why::Path))?;
    let path = path_of(alloc, rest)?;
    unless_above(alloc, path)
}

/// Reads the folder of a port: `$/`, which stands for the registry, and a path that isn't rooted
/// and has no steps up. `Path` comes for any other text.
#[derive(Drop)]
pub struct FolderText;

impl Reader for FolderText {
    type Out = TreePath;

    ghost Plain = { Path };

    ghost plain = { λ path. path };

    ghost reads = { λ r. folder_at };

    fn read(&self, alloc: Global, value: &Value) -> Result<TreePath, Unread<FileFault>> {
        read_folder(alloc, text(alloc, value)?)
    }
}
