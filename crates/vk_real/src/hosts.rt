//! What the host has at a path.

use std::fs::{self, DirEntry, Metadata, OpenFile};
use std::io::{self, ErrorKind};
use std::rt::Files;
use vk_base::{Text, TreePath};
use vk_tree::Kind;

/// The host's files, by the handle that reaches them.
#[derive(Drop)]
pub(crate) struct Host<R> {
    pub(crate) rt: R,
}

/// What a call comes to: a value or a fault, where the host has no error.
pub(crate) type Came<T, F> = io::Result<Result<T, F>>;

/// A file that is open, and its size when it was opened.
#[derive(Drop)]
pub(crate) struct Opened<F> {
    pub(crate) file: F,
    pub(crate) size: u64,
}

/// The text of a path. Most paths are those of their parts, so nothing is made for them.
#[derive(Drop)]
pub(crate) enum PathText<'a> {
    Parts(&'a str),
    Made(Text),
}

impl<'a> PathText<'a> {
    pub(crate) fn as_str(&self) -> &str {
        match self {
            PathText::Parts(text) => *text,
            PathText::Made(text) => text.as_str(),
        }
    }
}

// Whether a path's text is that of its parts: it isn't rooted, goes no step up, and has some.
fn is_its_parts(path: &TreePath) -> bool {
    !path.is_rooted() && path.steps_up() == 0 && !path.parts_text().is_empty()
}

/// What stands at a path.
#[derive(Clone, Copy)]
pub(crate) enum Stand {
    Absent,
    /// A file, or a link to one.
    File,
    Folder,
    /// A link to a folder.
    Linked,
    /// A device, a pipe, or a link that leads to neither a file nor a folder.
    Other,
}

/// What the host has, if anything: a file may be on the way to it, or a link that leads to itself.
pub(crate) fn if_there<T: Drop>(found: io::Result<T>) -> io::Result<Option<T>> {
    match found {
        Ok(found) => Ok(Some(found)),
        Err(e) => match e.kind() {
            ErrorKind::NotFound | ErrorKind::NotADirectory | ErrorKind::FilesystemLoop => Ok(None),
            _ => Err(e),
        },
    }
}

/// What was opened, if it is a file.
pub(crate) fn if_file<F: OpenFile + Drop>(file: F) -> io::Result<Option<Opened<F>>> {
    let found = file.metadata()?;
    if !found.is_file() {
        return Ok(None);
    }
    Ok(Some(Opened {
        size: found.len(),
        file,
    }))
}

impl<R: Files + AllocGlobal> Host<R> {
    /// The text of a path, where out of memory is the host's error of that kind.
    pub(crate) fn text<'a>(&self, path: &'a TreePath) -> io::Result<PathText<'a>> {
        if is_its_parts(path) {
            return Ok(PathText::Parts(path.parts_text()));
        }
        match path.text(self.rt.alloc()) {
            Ok(text) => Ok(PathText::Made(text)),
            Err(_) => Err(ErrorKind::OutOfMemory.into()),
        }
    }

    /// The file at a path, or the one that a link there leads to. A folder counts as none.
    pub(crate) fn file(&self, path: &str) -> io::Result<Option<Metadata>> {
        Ok(if_there(fs::metadata(&self.rt, path))?.filter(|found| found.is_file()))
    }

    /// What stands at a path, opened. Whether it is a file is seen after that, so that its path is
    /// looked up once.
    pub(crate) fn open(&self, path: &str) -> io::Result<Option<R::File>> {
        match if_there(fs::open(&self.rt, path)) {
            Ok(opened) => Ok(opened),
            Err(e) => self.unopened(path, e),
        }
    }

    // What an open that failed tells: what is no file counts as none.
    fn unopened(&self, path: &str, e: io::Error) -> io::Result<Option<R::File>> {
        match self.file(path) {
            Ok(None) => Ok(None),
            Ok(Some(_)) | Err(_) => Err(e),
        }
    }

    /// What stands at a path, where a link counts by what it is.
    pub(crate) fn stand(&self, path: &str) -> io::Result<Stand> {
        match if_there(fs::symlink_metadata(&self.rt, path))? {
            None => Ok(Stand::Absent),
            Some(found) if found.is_file() => Ok(Stand::File),
            Some(found) if found.is_dir() => Ok(Stand::Folder),
            Some(found) if found.is_symlink() => self.led_to(path),
            Some(_) => Ok(Stand::Other),
        }
    }

    // What a link leads to.
    fn led_to(&self, path: &str) -> io::Result<Stand> {
        match if_there(fs::metadata(&self.rt, path))? {
            Some(found) if found.is_file() => Ok(Stand::File),
            Some(found) if found.is_dir() => Ok(Stand::Linked),
            Some(_) | None => Ok(Stand::Other),
        }
    }

    /// What counts at a path: a folder without files is absent.
    pub(crate) fn kind(&self, path: &TreePath) -> io::Result<Kind> {
        let path = self.text(path)?;
        self.kind_at(path.as_str())
    }

    fn kind_at(&self, path: &str) -> io::Result<Kind> {
        match self.stand(path)? {
            Stand::File => Ok(Kind::File),
            Stand::Folder | Stand::Linked if self.holds_files(path)? => Ok(Kind::Folder),
            Stand::Folder | Stand::Linked | Stand::Absent | Stand::Other => Ok(Kind::Absent),
        }
    }

    /// Whether a file, or a link to a folder, lies below a folder.
    pub(crate) fn holds_files(&self, folder: &str) -> io::Result<bool> {
        Ok(self.bare_folders(folder)?.is_none())
    }

    /// A folder and all folders below it, each before those in it; `None` where it holds files.
    pub(crate) fn bare_folders(&self, folder: &str) -> io::Result<Option<Vec<String>>> {
        let mut folders = Vec::new(self.rt.alloc());
        folders.push(String::from_str(self.rt.alloc(), folder)?)?;
        if self.has_file_below(&mut folders)? {
            return Ok(None);
        }
        Ok(Some(folders))
    }

    // Whether a file lies in the folders of the list or below; the folders below join the list.
    fn has_file_below(&self, folders: &mut Vec<String>) -> io::Result<bool> {
        for at in 0..usize::MAX {
            if at >= folders.len() {
                break;
            }
            if self.has_file_in(at, folders)? {
                return Ok(true);
            }
        }
        Ok(false)
    }

    // Whether a file lies in the folder at a place of the list; the folders in it join the list.
    fn has_file_in(&self, at: usize, folders: &mut Vec<String>) -> io::Result<bool> {
        let Some(folder) = folders.get(at) else {
            return Ok(false);
        };
        let Some(entries) = if_there(fs::read_dir(&&self.rt, folder.as_str()))? else {
            return Ok(false);
        };
        for entry in entries {
            if self.is_file(&entry?, folders)? {
                return Ok(true);
            }
        }
        Ok(false)
    }

    // Whether an entry counts as a file; a folder joins the list.
    fn is_file(&self, entry: &DirEntry<&R, R::A>, folders: &mut Vec<String>) -> io::Result<bool> {
        let path = entry.path().as_str();
        let stand = self.stand(path)?;
        if let Stand::Folder = stand {
            folders.push(String::from_str(self.rt.alloc(), path)?)?;
        }
        Ok(matches!(stand, Stand::File | Stand::Linked))
    }
}
