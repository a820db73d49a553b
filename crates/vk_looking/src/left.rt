//! The listed files of an entry, and those of them that are left to read.
ghost use Rattle.std.specs.Prelude.{◌≡◌, ◌++◌, ◌∷◌, [], IfOk, List, ℕ, Ok, map, option_map, reverse};
ghost use Rattle.vk_protocol.specs.Protocols.{ends};
ghost use Rattle.vk_entry.specs.ContentLists.{Ascend};
ghost use Rattle.vk_entry.specs.ContentViews.{content_view};
ghost use Rattle.vk_entry.specs.PackageViews.{file_view};
ghost use Rattle.vk_look.specs.LookIs.{Wanted};
ghost use Rattle.vk_look.specs.Looks.{no_files, with_file};
ghost use Rattle.vk_looking.specs.FilesToRead.{Follow};
ghost use Rattle.vk_looking.specs.LookMachine.{files_left, left_means};

use std::alloc::Global;
use std::marker::Model;
use vk_base::{List, Memory};
use vk_entry::{ContentLine, Package, PackageFile};

/// The lines of a contents list, in the order of the texts of their paths.
#[derive(Drop)]
pub struct Lines {
    lines: List<ContentLine>,
}

impl Model for Lines {
    ghost use Rattle.std.specs.Prelude.{List, map};
    ghost use Rattle.vk_entry.specs.Contents.{Content};
    ghost use Rattle.vk_entry.specs.ContentLists.{Ascend};
    ghost use Rattle.vk_entry.specs.ContentViews.{content_view};

    ghost Value = { List Content };

    ghost view = { λ l. map content_view l.lines };

    ghost invariant = { λ l. Ascend (map content_view l.lines) };
}

impl Lines {
    pub(crate) fn of(lines: List<ContentLine>) -> Lines
        requires { Ascend (map content_view lines) }
        ensures { result ≡ map content_view lines }
    {
        Lines { lines }
    }

    pub(crate) fn as_slice(&self) -> &[ContentLine]
        ensures { map content_view result.now ≡ self.now }
    {
        self.lines.as_slice()
    }
}

/// Listed files that are left to read, and those that were read, where they are kept.
#[derive(Drop)]
pub struct FilesLeft {
    line: ContentLine,
    // The next one last.
    todo: List<ContentLine>,
    files: Option<List<PackageFile>>,
}

impl Model for FilesLeft {
    ghost use Rattle.std.specs.Prelude.{◌∷◌, map, option_map, reverse};
    ghost use Rattle.vk_entry.specs.ContentViews.{content_view};
    ghost use Rattle.vk_entry.specs.PackageViews.{file_view};
    ghost use Rattle.vk_looking.specs.FilesToRead.{FilesToRead, Follow};

    ghost Value = { FilesToRead };

    ghost view = { λ l. record {
      next = content_view l.line;
      later = map content_view (reverse l.todo);
      files = option_map (map file_view) l.files;
    } };

    ghost invariant = { λ l. Follow (option_map (map file_view) l.files)
        (content_view l.line ∷ map content_view (reverse l.todo)) };
}

/// The next listed file, or all that were kept.
#[derive(Drop)]
pub enum Left {
    /// One is left.
    Next(FilesLeft),
    /// None is left; the package, where its files were kept.
    All(Option<Package>),
}

// The package of files that were kept.
fn package_of(files: Option<List<PackageFile>>) -> Option<Package>
    requires { Follow (option_map (map file_view) files) [] }
    ensures { result ≡ option_map (map file_view) files }
{
    match files {
        Some(files) => Some(Package::from_files(files)),
        None => None,
    }
}

// What is left of these lines, the next one last.
fn left_of(todo: List<ContentLine>, files: Option<List<PackageFile>>) -> Left
    requires { Follow (option_map (map file_view) files) (map content_view (reverse todo)) }
    ensures { (w : Wanted) (kept : List ℕ) → left_means w kept result
        ≡ files_left w kept (map content_view (reverse todo)) (option_map (map file_view) files) }
{
    let mut todo = todo;
    match todo.pop() {
        Some(line) => Left::Next(FilesLeft { line, todo, files }),
        None => Left::All(package_of(files)),
    }
}

// No files so far, where they are to be kept.
fn no_files(alloc: Global, keep: bool) -> Option<List<PackageFile>>
    ensures { option_map (map file_view) result ≡ no_files keep }
{
    if keep {
        return Some(List::new(alloc));
    }
    None
}

// With one more file, where they are kept.
fn with_file(
    line: ContentLine,
    bytes: List<u8>,
    files: Option<List<PackageFile>>,
) -> Result<Option<List<PackageFile>>, Memory>
    ensures { IfOk result (λ fs. option_map (map file_view) fs
        ≡ with_file (content_view line) bytes (option_map (map file_view) files)) }
{
    let Some(files) = files else {
        return Ok(None);
    };
    let mut files = files;
    files.push(PackageFile {
        path: line.path,
        bytes,
    })?;
    Ok(Some(files))
}

impl Left {
    /// All listed files, which are to be kept or not.
    pub(crate) fn all(alloc: Global, lines: Lines, keep: bool) -> Left
        ensures { (w : Wanted) (kept : List ℕ) → left_means w kept result
            ≡ files_left w kept lines (no_files keep) }
    {
        let mut todo = lines.lines.into_vec();
        todo.reverse();
        left_of(List::from_vec(todo), no_files(alloc, keep))
    }
}

impl FilesLeft {
    /// The line of the next one.
    pub(crate) fn next(&self) -> &ContentLine
        ensures { content_view result.now ≡ self.now.next }
    {
        &self.line
    }

    /// What is left once the next one was read.
    pub(crate) fn take(self, bytes: List<u8>) -> Result<Left, Memory>
        ensures { IfOk result (λ left. (w : Wanted) (kept : List ℕ) → left_means w kept left
            ≡ files_left w kept self.later (with_file self.next bytes self.files)) }
    {
        let FilesLeft { line, todo, files } = self;
        let files = with_file(line, bytes, files)?;
        Ok(left_of(todo, files))
    }
}
