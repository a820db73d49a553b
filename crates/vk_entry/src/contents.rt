//! The list of what a package contains: each file's path, size and digest.
ghost use Rattle.std.specs.Prelude.{◌≡◌, ◌++◌, Some, IfOk, OnOk, flat_map, map, string_bytes};
ghost use Rattle.vk_resolution.specs.Lines.{ended};
ghost use Rattle.vk_entry.specs.Contents.{content_of, content_text, contents_text};
ghost use Rattle.vk_entry.specs.ContentViews.{content_view};
ghost use Rattle.vk_entry.specs.PackageViews.{file_view};

use crate::digests::DigestText;
use crate::packages::{Package, PackageFile};
use std::alloc::Global;
use std::fmt;
use vk_base::{List, Memory, PathToken, TreePath};
use vk_digest::Digest;

/// What a contents list says of a file.
#[derive(Drop)]
pub struct ContentLine {
    /// Where it stands in the package.
    pub path: TreePath,
    /// How many bytes it has.
    pub size: u64,
    /// The SHA-256 of its bytes.
    pub digest: Digest,
}

impl fmt::Display for ContentLine {
    ghost output = { λ line. Some (content_text (content_view line)) };

    fn fmt<W: fmt::Write>(&self, f: &mut fmt::Formatter<W>) -> fmt::Result {
        let (path, digest) = (PathToken(&self.path), DigestText(&self.digest));
        write!(f, "file {path} {} {digest}", self.size)
    }
}

fn content_of(file: &PackageFile) -> Result<ContentLine, Memory>
    ensures { IfOk result (λ line. content_view line ≡ content_of (file_view file.now)) }
{
    Ok(ContentLine {
        path: file.path.clone()?,
        size: file.bytes.len() as u64,
        digest: Digest::of(file.bytes.as_slice()),
    })
}

/// The paths, sizes and digests of a package's files, in their order.
pub fn contents_of(alloc: Global, package: &Package) -> Result<List<ContentLine>, Memory>
    ensures { IfOk result (λ lines. map content_view lines ≡ map content_of «package».now) }
{
    let mut lines = List::new(alloc);
    for file in package.files() {
        lines.push(content_of(file)?)?;
    }
    Ok(lines)
}

fn push_lines(text: &mut String, lines: &[ContentLine]) -> Result<(), Memory>
    ensures { OnOk result (string_bytes text.new ≡ string_bytes text.old
        ++ flat_map ended (map content_text (map content_view lines.now))) }
{
    for line in lines {
        writeln!(text, "{line}")?;
    }
    Ok(())
}

/// The contents list of these lines, as bytes. Each line ends with a line feed.
pub fn write_contents(alloc: Global, lines: &List<ContentLine>) -> Result<List<u8>, Memory>
    ensures { IfOk result (λ bytes. bytes ≡ contents_text (map content_view lines.now)) }
{
    let mut text = String::from_str(alloc, "contents 1\n")?;
    push_lines(&mut text, lines.as_slice())?;
    text.push_str("end\n")?;
    Ok(List::from_vec(text.into_bytes()))
}
