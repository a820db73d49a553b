//! How a line of a contents list is read.
ghost use Rattle.std.specs.Prelude.{◌≡◌, IfOk, ℕ, option_map};
ghost use Rattle.std.specs.Fmt.{decimal};
ghost use Rattle.vk_spec.specs.Paths.{Path};
ghost use Rattle.vk_base.specs.Printed.{path_text};
ghost use Rattle.vk_forms.specs.Choices.{either_plain};
ghost use Rattle.vk_forms.specs.Forms.{ReadsAs};
ghost use Rattle.vk_entry.specs.Contents as plain;
ghost use Rattle.vk_entry.specs.Contents.{content_text};
ghost use Rattle.vk_entry.specs.ContentViews.{content_view};
ghost use Rattle.vk_entry.specs.ContentLists.{IsContent, IsListedPath, IsSize};
ghost use Rattle.vk_entry.specs.Readings.{IsRightLine, content_from, content_parts, line_text};

use crate::contents::ContentLine;
use crate::digests::AnyDigest;
use crate::packages::is_package_path;
use std::alloc::Global;
use vk_base::{Memory, TreePath, read_u64};
use vk_digest::Digest;
use vk_forms::{Either, Form, Or, ShortPath, Then, Word};

// A path that a package's files may have.
#[derive(Drop)]
struct PackagePath;

impl Form for PackagePath {
    type Out = TreePath;

    ghost Plain = { Path };

    ghost plain = { λ p. p };

    ghost prints = { λ f. path_text };

    ghost is_right = { λ f. IsListedPath };

    fn read(&self, alloc: Global, text: &str) -> Result<Option<TreePath>, Memory> {
        let Some(path) = ShortPath.read(alloc, text)? else {
            return Ok(None);
        };
        if is_package_path(&path) {
            return Ok(Some(path));
        }
        Ok(None)
    }
}

// A number of 64 bits.
#[derive(Drop)]
struct Size;

impl Form for Size {
    type Out = u64;

    ghost Plain = { ℕ };

    ghost plain = { λ n. n };

    ghost prints = { λ f. decimal };

    ghost is_right = { λ f. IsSize };

    fn read(&self, _alloc: Global, text: &str) -> Result<Option<u64>, Memory> {
        Ok(read_u64(text))
    }
}

type Parts = ((), (TreePath, (u64, Digest)));

fn content_from(parts: Parts) -> ContentLine
    ensures { content_view result ≡ content_from (content_parts parts) }
{
    let ((), (path, (size, digest))) = parts;
    ContentLine { path, size, digest }
}

// The line of a file.
#[derive(Drop)]
struct FileLine;

impl Form for FileLine {
    type Out = ContentLine;

    ghost Plain = { plain.Content };

    ghost plain = { content_view };

    ghost prints = { λ f. content_text };

    ghost is_right = { λ f. IsContent };

    fn read(&self, alloc: Global, text: &str) -> Result<Option<ContentLine>, Memory> {
        let form = Then(Word("file"), Then(PackagePath, Then(Size, AnyDigest)));
        match form.read(alloc, text)? {
            Some(parts) => Ok(Some(content_from(parts))),
            None => Ok(None),
        }
    }
}

/// The last line, or what the line of a file says; `None` exactly where a line is neither.
pub(crate) fn read_line(
    alloc: Global,
    line: &[u8],
) -> Result<Option<Either<(), ContentLine>>, Memory>
    ensures { IfOk result (λ found. ReadsAs line_text IsRightLine line.now
        (option_map (either_plain (λ u. u) content_view) found)) }
{
    match str::from_utf8(line) {
        Ok(text) => Or(Word("end"), FileLine).read(alloc, text),
        Err(_) => Ok(None),
    }
}
