//! Files of the host written, moved and removed.

use crate::hosts::{Came, Host, Stand};
use std::fs::{self, File};
use std::io::{self, ErrorKind, Write};
use std::path::Path;
use std::rt::Files;
use vk_base::TreePath;
use vk_tree::{Kind, MoveFault, RemoveFault};

impl<R: Files + AllocGlobal> Host<R> {
    /// Writes a file anew, in place of the one that stands there.
    pub(crate) fn write(&self, path: &TreePath, bytes: &[u8]) -> io::Result<()> {
        let path = self.text(path)?;
        self.write_at(path.as_str(), bytes)
    }

    fn write_at(&self, path: &str, bytes: &[u8]) -> io::Result<()> {
        if self.file(path)?.is_some() {
            fs::remove_file(&self.rt, path)?;
        }
        self.make_room(path)?;
        File::create_new(&self.rt, path)?.write_all(bytes)
    }

    /// Moves a file or a folder with files, never into or out of itself, and removes the folders
    /// that this empties.
    pub(crate) fn rename(&self, from: &TreePath, to: &TreePath) -> Came<(), MoveFault> {
        if from.begins(to) || to.begins(from) {
            return Err(ErrorKind::InvalidInput.into());
        }
        if self.kind(from)? == Kind::Absent {
            return Ok(Err(MoveFault::Missing));
        }
        if self.kind(to)? != Kind::Absent {
            return Ok(Err(MoveFault::Exists));
        }
        let (from, to) = (self.text(from)?, self.text(to)?);
        self.make_room(to.as_str())?;
        match fs::rename(&self.rt, from.as_str(), to.as_str()) {
            Ok(()) => self.remove_emptied(from.as_str()),
            Err(e) => return lost(e),
        }
        Ok(Ok(()))
    }

    /// Removes a file and the folders that this empties.
    pub(crate) fn remove(&self, path: &TreePath) -> Came<(), RemoveFault> {
        let path = self.text(path)?;
        if self.file(path.as_str())?.is_none() {
            return Ok(Err(RemoveFault::Missing));
        }
        fs::remove_file(&self.rt, path.as_str())?;
        self.remove_emptied(path.as_str());
        Ok(Ok(()))
    }

    // Removes folders without files that stand at a path, and makes those above it.
    fn make_room(&self, path: &str) -> io::Result<()> {
        match self.stand(path)? {
            Stand::Absent => {}
            Stand::Folder => self.remove_bare(path)?,
            Stand::File | Stand::Linked | Stand::Other => {
                return Err(ErrorKind::AlreadyExists.into());
            }
        }
        match Path::new(path).parent() {
            Some(parent) => fs::create_dir_all(&self.rt, parent),
            None => Ok(()),
        }
    }

    fn remove_bare(&self, folder: &str) -> io::Result<()> {
        let Some(folders) = self.bare_folders(folder)? else {
            return Err(ErrorKind::IsADirectory.into());
        };
        for folder in folders.iter().rev() {
            fs::remove_dir(&self.rt, folder.as_str())?;
        }
        Ok(())
    }

    // Removes the folders above a path, from the lowest, as long as they are empty.
    fn remove_emptied(&self, path: &str) {
        for folder in Path::new(path).ancestors().skip(1) {
            if fs::remove_dir(&self.rt, folder).is_err() {
                return;
            }
        }
    }
}

// Why a move failed: what stood there or didn't has changed meanwhile, or the host failed.
fn lost(e: io::Error) -> Came<(), MoveFault> {
    match e.kind() {
        ErrorKind::NotFound => Ok(Err(MoveFault::Missing)),
        ErrorKind::AlreadyExists | ErrorKind::DirectoryNotEmpty => Ok(Err(MoveFault::Exists)),
        _ => Err(e),
    }
}
