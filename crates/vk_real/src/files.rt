//! The host's files as a tree.
ghost use Rattle.std.specs.Prelude.{◌≡◌};
ghost use Rattle.vk_real.specs.Files.{file_state, no_calls, Ended};

use crate::hosts::Host;
use std::io::{self, ErrorKind};
use std::os::unix::fs::FileExt;
use std::rt::Files;
use vk_base::{List, Memory, Outage, Stop, TreePath};
use vk_tree::{Kind, ListFault, Listed, MoveFault, ReadFault, RemoveFault, Tree};

/// The host's files. It tells nothing of them, and counts each error.
#[derive(Drop)]
pub struct FileTree<R> {
    host: Host<R>,
    changes: u64,
    faults: u64,
    calls: u64,
    widest: u64,
}

impl<R: Files + AllocGlobal> FileTree<R> {
    /// A tree whose counts are 0.
    pub fn new(rt: R) -> FileTree<R>
        ensures { file_state result ≡ no_calls }
    {
        FileTree {
            host: Host { rt },
            changes: 0,
            faults: 0,
            calls: 0,
            widest: 0,
        }
    }

    // Ends a call that was to give so many bytes at most. An error of the host is out of memory,
    // where it says so, or else a failure, which counts.
    fn end<T: Drop>(&mut self, width: u64, came: io::Result<T>) -> Result<T, Outage>
        ensures { Ended width came result (file_state self.old) (file_state self.new) }
    {
        self.calls = self.calls.saturating_add(1);
        self.widest = self.widest.max(width);
        match came {
            Ok(value) => Ok(value),
            Err(e) if e.kind() == ErrorKind::OutOfMemory => {
                Err(Outage::Memory(Memory::without_allocation()))
            }
            Err(_) => {
                self.faults = self.faults.saturating_add(1);
                Err(Outage::Failed)
            }
        }
    }
}

impl<R: Files + AllocGlobal> Tree for FileTree<R>
where
    R::File: FileExt,
{
    ghost state = { file_state };

    fn kind(&mut self, path: &TreePath) -> Result<Kind, Outage> {
        let kind = self.host.kind(path);
        self.end(0, kind)
    }

    fn read(&mut self, path: &TreePath, limit: u64) -> Result<List<u8>, Stop<ReadFault>> {
        let read = self.host.read(path, limit);
        self.end(limit, read)?.map_err(Stop::Fault)
    }

    fn piece(&mut self, path: &TreePath, at: u64, most: u32) -> Result<List<u8>, Stop<ReadFault>> {
        let read = self.host.piece(path, at, most);
        self.end(most as u64, read)?.map_err(Stop::Fault)
    }

    fn list(&mut self, dir: &TreePath) -> Result<List<Listed>, Stop<ListFault>> {
        let listed = self.host.list(dir);
        self.end(0, listed)?.map_err(Stop::Fault)
    }

    fn write(&mut self, path: &TreePath, bytes: &[u8]) -> Result<(), Outage> {
        let written = self.host.write(path, bytes);
        self.end(0, written)?;
        self.changes = self.changes.saturating_add(1);
        Ok(())
    }

    fn rename(&mut self, from: &TreePath, to: &TreePath) -> Result<(), Stop<MoveFault>> {
        let moved = self.host.rename(from, to);
        self.end(0, moved)?.map_err(Stop::Fault)?;
        self.changes = self.changes.saturating_add(1);
        Ok(())
    }

    fn remove(&mut self, path: &TreePath) -> Result<(), Stop<RemoveFault>> {
        let removed = self.host.remove(path);
        self.end(0, removed)?.map_err(Stop::Fault)?;
        self.changes = self.changes.saturating_add(1);
        Ok(())
    }

    fn faults(&self) -> u64 {
        self.faults
    }
}
