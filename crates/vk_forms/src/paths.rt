//! Paths and places in files.
ghost use Rattle.std.specs.Prelude.{◌≡◌, ◌==◌, List, ℕ, IfOk, option_map, slice_index};
ghost use Rattle.vk_base.specs.Paths.{text_of_path};
ghost use Rattle.vk_base.specs.Printed.{path_text};
ghost use Rattle.vk_spec.specs.Paths.{Path};
ghost use Rattle.vk_json.specs.Places.{place_text};
ghost use Rattle.vk_forms.specs.Forms.{ReadsAs};
ghost use Rattle.vk_forms.specs.Paths.{IsPlace, IsRightPath, IsShortPath};

use crate::forms::{Form, found};
use crate::texts::TokenText;
use std::alloc::Global;
use vk_base::{Memory, Text, TreePath};

// The path that has a text; `None` exactly where no path of at most 4,096 bytes has it.
fn path_of(alloc: Global, text: &Text) -> Result<Option<TreePath>, Memory>
    ensures { IfOk result (λ found. ReadsAs text_of_path IsShortPath text.now
        (option_map (λ p. p) found)) }
{
    let Some(path) = found(TreePath::read(alloc, text.as_str()))? else {
        return Ok(None);
    };
    if path.text(alloc)?.is(text.as_str()) {
        return Ok(Some(path));
    }
    Ok(None)
}

/// A path whose text has at most 4,096 bytes.
#[derive(Drop)]
pub struct ShortPath;

impl Form for ShortPath {
    type Out = TreePath;

    ghost Plain = { Path };

    ghost plain = { λ p. p };

    ghost prints = { λ f. path_text };

    ghost is_right = { λ f. IsRightPath };

    fn read(&self, alloc: Global, text: &str) -> Result<Option<TreePath>, Memory> {
        match TokenText.read(alloc, text)? {
            Some(text) => path_of(alloc, &text),
            None => Ok(None),
        }
    }
}

fn begins_with_slash(bytes: &[u8]) -> bool
    ensures { result ≡ (slice_index bytes.now 0 == 47) }
{
    match bytes {
        [first, ..] => *first == b'/',
        [] => false,
    }
}

/// A place in a file: `-` for all of it, or a token that begins with `/`.
#[derive(Drop)]
pub struct Place;

impl Form for Place {
    type Out = Text;

    ghost Plain = { List ℕ };

    ghost plain = { λ p. p };

    ghost prints = { λ f. place_text };

    ghost is_right = { λ f. IsPlace };

    fn read(&self, alloc: Global, text: &str) -> Result<Option<Text>, Memory> {
        if text == "-" {
            return Ok(Some(Text::new(alloc)));
        }
        let Some(place) = TokenText.read(alloc, text)? else {
            return Ok(None);
        };
        if begins_with_slash(place.as_bytes()) {
            return Ok(Some(place));
        }
        Ok(None)
    }
}
