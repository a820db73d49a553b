//! Files in memory that rows put.

use std::alloc::Global;
use std::mem;
use vk_base::{List, Memory, TreePath, Unread};
use vk_row_text::{NoRow, Reply, bytes_of, cut, number_of, path_of};
use vk_tree::MemTree;

// A path, and the bytes that are to stand there.
#[derive(Drop)]
struct File {
    path: TreePath,
    bytes: List<u8>,
}

/// A tree in memory, and the files that each new one has.
#[derive(Drop)]
pub struct Workspace {
    common: Vec<File>,
    /// The tree that rows put files into.
    pub tree: MemTree,
}

fn put(tree: &mut MemTree, file: &File) -> Result<(), Unread<NoRow>> {
    if !tree.has_room(&file.path) {
        return Err(Unread::Fault(NoRow));
    }
    Ok(tree.put(&file.path, file.bytes.as_slice())?)
}

fn put_all(tree: &mut MemTree, files: &[File]) -> Result<(), Unread<NoRow>> {
    for file in files {
        put(tree, file)?;
    }
    Ok(())
}

fn file_of(alloc: Global, row: &str) -> Result<File, Unread<NoRow>> {
    let (path, bytes) = cut(row);
    let bytes = bytes_of(alloc, bytes)?;
    let path = path_of(alloc, path)?;
    Ok(File { path, bytes })
}

fn blanks(alloc: Global, count: usize) -> Result<List<u8>, Memory> {
    Ok(List::from_vec(vec![in alloc; b' '; count]?))
}

fn blanks_of(alloc: Global, row: &str) -> Result<File, Unread<NoRow>> {
    let (path, count) = cut(row);
    let bytes = blanks(alloc, number_of(count)?)?;
    let path = path_of(alloc, path)?;
    Ok(File { path, bytes })
}

/// The numbers of words.
pub fn numbers_of(alloc: Global, row: &str) -> Result<List<u64>, Unread<NoRow>> {
    let mut numbers = List::new(alloc);
    for word in row.split(' ') {
        numbers.push(number_of(word)?)?;
    }
    Ok(numbers)
}

/// What was done, and that nothing is to be told of it; or why it wasn't.
pub fn done(reply: &mut Reply, done: Result<(), Unread<NoRow>>) {
    reply.silence();
    reply.needed(done);
}

impl Workspace {
    /// A tree without files, and no common ones.
    pub fn new(alloc: Global) -> Result<Workspace, Memory> {
        let tree = MemTree::new(alloc)?;
        Ok(Workspace {
            common: Vec::new(alloc),
            tree,
        })
    }

    /// Begins again: a new tree, with the common files and no call that fails.
    pub fn restart(&mut self, alloc: Global) -> Result<(), Unread<NoRow>> {
        self.tree = MemTree::new(alloc)?;
        put_all(&mut self.tree, self.common.as_slice())
    }

    /// Begins again with no common files.
    pub fn forget(&mut self, alloc: Global) -> Result<(), Unread<NoRow>> {
        self.common = Vec::new(alloc);
        self.restart(alloc)
    }

    /// The tree, in whose place an empty one stands until it is put back.
    pub fn take_tree(&mut self, alloc: Global) -> Result<MemTree, Memory> {
        let empty = MemTree::new(alloc)?;
        Ok(mem::replace(&mut self.tree, empty))
    }

    /// `common PATH FILE`: each tree from here on has this file.
    pub fn share(&mut self, alloc: Global, row: &str) -> Result<(), Unread<NoRow>> {
        let file = file_of(alloc, row)?;
        Ok(self.common.push(file)?)
    }

    /// `file PATH FILE`: puts a file. `NoRow` where one stands in the way.
    pub fn put(&mut self, alloc: Global, row: &str) -> Result<(), Unread<NoRow>> {
        let file = file_of(alloc, row)?;
        put(&mut self.tree, &file)
    }

    /// `blanks PATH N`: puts a file of so many blanks.
    pub fn put_blanks(&mut self, alloc: Global, row: &str) -> Result<(), Unread<NoRow>> {
        let file = blanks_of(alloc, row)?;
        put(&mut self.tree, &file)
    }

    /// `fails N ..`: the tree fails at these calls, counted from 1.
    pub fn fail_at(&mut self, alloc: Global, row: &str) -> Result<(), Unread<NoRow>> {
        let calls = numbers_of(alloc, row)?;
        Ok(self.tree.fail_at(calls.as_slice())?)
    }
}
