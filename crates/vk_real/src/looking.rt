//! A folder of the host listed, a file read whole, or a piece of it.
ghost use Rattle.std.specs.Prelude.{◌≤◌, IfOk, IfSome, OnOk, length};
ghost use Rattle.vk_real.specs.Listings.{AreParts, IsListing};

use crate::hosts::{Came, Host, Opened, Stand, if_file, if_there};
use std::alloc::Global;
use std::fs::{self, DirEntry, OpenFile};
use std::io::{self, ErrorKind, Read, Seek, SeekFrom};
use std::os::unix::fs::FileExt;
use std::rt::Files;
use vk_base::{List, Text, TreePath};
use vk_tree::{ListFault, Listed, ReadFault, may_be_part};

const MOST_ENTRIES: usize = 100_000;

impl<R: Files + AllocGlobal> Host<R> {
    /// The entries of a folder by their names, but for folders without files and what is neither a
    /// file nor a folder. A link to a folder is an error, and so is a name that isn't text.
    pub(crate) fn list(&self, dir: &TreePath) -> Came<List<Listed>, ListFault>
        ensures { IfOk result (λ listed. IfOk listed IsListing) }
    {
        let dir = self.text(dir)?;
        let mut found = Vec::new(self.rt.alloc());
        self.add_entries(dir.as_str(), &mut found)?;
        if found.is_empty() {
            return Ok(Err(ListFault::Missing));
        }
        if found.len() > MOST_ENTRIES {
            return Ok(Err(ListFault::Many));
        }
        found.sort_unstable_by(|a, b| a.name.cmp(&b.name));
        Ok(Ok(List::from_vec(found)))
    }

    // Adds the entries of a folder, up to one more than may be.
    fn add_entries(&self, dir: &str, found: &mut Vec<Listed>) -> io::Result<()>
        requires { AreParts found.old.items }
        ensures { OnOk result (AreParts found.new.items) }
    {
        let Some(entries) = if_there(fs::read_dir(&&self.rt, dir))? else {
            return Ok(());
        };
        for entry in entries {
            if found.len() > MOST_ENTRIES {
                return Ok(());
            }
            self.add(&entry?, found)?;
        }
        Ok(())
    }

    // Adds an entry, unless it counts as absent.
    fn add(&self, entry: &DirEntry<&R, R::A>, found: &mut Vec<Listed>) -> io::Result<()>
        requires { AreParts found.old.items }
        ensures { OnOk result (AreParts found.new.items) }
    {
        let (path, name) = (entry.path().as_str(), entry.file_name());
        let folder = match self.stand(path)? {
            Stand::File => false,
            Stand::Folder if self.holds_files(path)? => true,
            Stand::Folder | Stand::Absent | Stand::Other => return Ok(()),
            Stand::Linked => return Err(ErrorKind::Unsupported.into()),
        };
        if !may_be_part(name) {
            return Err(ErrorKind::InvalidFilename.into());
        }
        let name = Text::from_str(self.rt.alloc(), name)?;
        found.push(Listed { name, folder })?;
        Ok(())
    }

    /// The file at a path, unless it is longer than the limit.
    pub(crate) fn read(&self, path: &TreePath, limit: u64) -> Came<List<u8>, ReadFault>
    where
        R::File: FileExt,
        ensures { IfOk result (λ read. IfOk read (λ bytes. length bytes ≤ limit)) }
    {
        let path = self.text(path)?;
        let Some(mut file) = self.open(path.as_str())? else {
            return Ok(Err(ReadFault::Missing));
        };
        if let Some(bytes) = read_at_once(self.rt.alloc(), &mut file, limit)? {
            return Ok(Ok(List::from_vec(bytes)));
        }
        read_asked(self.rt.alloc(), file, limit)
    }

    /// The bytes of the file at a path from a place on, as many as there are up to a number.
    pub(crate) fn piece(&self, path: &TreePath, at: u64, most: u32) -> Came<List<u8>, ReadFault>
        ensures { IfOk result (λ read. IfOk read (λ bytes. length bytes ≤ most)) }
    {
        let path = self.text(path)?;
        let Some(file) = self.open(path.as_str())? else {
            return Ok(Err(ReadFault::Missing));
        };
        let Some(Opened { mut file, size }) = if_file(file)? else {
            return Ok(Err(ReadFault::Missing));
        };
        if at > 0 && !goes_to(&mut file, at)? {
            return Ok(Ok(List::new(self.rt.alloc())));
        }
        let left = size.saturating_sub(at).min(u64::from(most));
        let mut bytes = read_bytes(self.rt.alloc(), file, left, u64::from(most))?;
        bytes.truncate(most as usize);
        Ok(Ok(List::from_vec(bytes)))
    }
}

// The bytes of what has an end and gives them all by one read, as a file does. `None` where what is
// open has to be asked what it is: it has no end, no bytes, more than the limit, can't be read, or
// changed. It is at its beginning then, as it was before.
fn read_at_once<F: FileExt + Seek>(
    alloc: Global,
    file: &mut F,
    limit: u64,
) -> io::Result<Option<Vec<u8>>>
    ensures { IfOk result (λ read. IfSome read (λ bytes. length bytes.items ≤ limit)) }
{
    let Ok(size) = file.seek(SeekFrom::End(0)) else {
        return Ok(None);
    };
    if size > 0 && size <= limit {
        let mut bytes = Vec::from_elem(alloc, 0, (size as usize).saturating_add(1))?;
        if matches!(file.read_at(&mut bytes, 0), Ok(count) if count as u64 == size) {
            bytes.truncate(size as usize);
            return Ok(Some(bytes));
        }
    }
    file.seek(SeekFrom::Start(0))?;
    Ok(None)
}

// The bytes of what was opened, if it is a file.
fn read_asked<F: Read + OpenFile + Drop>(
    alloc: Global,
    file: F,
    limit: u64,
) -> Came<List<u8>, ReadFault>
    ensures { IfOk result (λ read. IfOk read (λ bytes. length bytes ≤ limit)) }
{
    let Some(Opened { file, size }) = if_file(file)? else {
        return Ok(Err(ReadFault::Missing));
    };
    if size > limit {
        return Ok(Err(ReadFault::TooLarge));
    }
    let bytes = read_bytes(alloc, file, size, limit.saturating_add(1))?;
    if bytes.len() as u64 > limit {
        return Ok(Err(ReadFault::TooLarge));
    }
    Ok(Ok(List::from_vec(bytes)))
}

// Goes to a place in a file; `false` where no file of the host can be as long.
fn goes_to<F: Seek>(file: &mut F, at: u64) -> io::Result<bool> {
    match file.seek(SeekFrom::Start(at)) {
        Ok(_) => Ok(true),
        Err(e) if e.kind() == ErrorKind::InvalidInput => Ok(false),
        Err(e) => Err(e),
    }
}

// The first bytes of a file that was this long a moment ago, at most so many. A read with room for
// one more that gives just these has met the end; else the file changed, and is read to its end.
fn read_bytes<F: Read + Drop>(alloc: Global, file: F, size: u64, most: u64) -> io::Result<Vec<u8>> {
    let mut bytes = Vec::from_elem(alloc, 0, (size as usize).saturating_add(1))?;
    let mut file = file.take(most);
    let count = file.read(&mut bytes)?;
    bytes.truncate(count);
    if count as u64 != size {
        let _ = file.read_to_end(&mut bytes)?;
    }
    Ok(bytes)
}
