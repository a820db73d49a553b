//! The rows about calls of a tree, each a question and its words:
//! - `mem CALL`, `host CALL`: a call of the tree in memory, or of the host's;
//! - `both CALL`: the call of both, which have to answer the same;
//! - `each N ROW`: how many of so many rows are answered by `done`, each the one row with its
//!   number in place of `#`.
//!
//! The calls are those of `looks`, `walks` and `caches`, and `write PATH BYTES`, `move FROM TO`,
//! `remove PATH`. In memory there are besides:
//! - `new`: begins again with no files;
//! - `fails N ..`: these calls fail from then on, counted from the first of the tree;
//! - `stops N`: this call fails, and each one after it.

ghost use Rattle.std.specs.Prelude.{IsTrue};
ghost use Rattle.vk_spec.specs.Paths.{Begins};

use crate::changes::{bytes_of, moved, paths_of, remove, written};
use crate::workspaces::numbers_of;
use crate::{caches, looks, walks};
use std::alloc::{AllocError, Global};
use std::os::unix::fs::FileExt;
use std::rt::Files;
use vk_base::{Memory, Text, TreePath};
use vk_real::FileTree;
use vk_row_text::{Answering, Reply, cut};
use vk_tree::{MemTree, Tree};

/// A tree in memory, which is empty at first, and the host's files in the folder where the program
/// runs.
#[derive(Drop)]
pub struct TreeCalls<R> {
    mem: MemTree,
    host: FileTree<R>,
}

// A call that every tree does.
fn call<T: Tree>(tree: &mut T, question: &str, row: &str, reply: &mut Reply) {
    match question {
        "walk" => walks::answer(tree, row, reply),
        "walked" => walks::count(tree, row, reply),
        "remove" => remove(tree, row, reply),
        "look" => caches::answer(tree, row, reply),
        _ => looks::answer(tree, question, row, reply),
    }
}

fn write_in_memory(tree: &mut MemTree, row: &str, reply: &mut Reply) {
    let (path, bytes) = cut(row);
    let path = reply.path(path);
    let bytes = bytes_of(bytes, reply);
    if tree.has_room(&path) {
        written(tree.write(&path, bytes.as_slice()), reply);
    } else {
        reply.push("no room");
    }
}

fn write_on_host<R: Files + Alloc<A = Global> + Clone + Drop>(
    tree: &mut FileTree<R>,
    row: &str,
    reply: &mut Reply,
)
where
    R::File: FileExt,
{
    let (path, bytes) = cut(row);
    let path = reply.path(path);
    let bytes = bytes_of(bytes, reply);
    written(tree.write(&path, bytes.as_slice()), reply);
}

// Whether neither of two paths begins the other.
fn are_apart(one: &TreePath, other: &TreePath) -> bool
    ensures left { IsTrue result → Begins one.now other.now → ⊥ }
    ensures right { IsTrue result → Begins other.now one.now → ⊥ }
{
    !one.begins(other) && !other.begins(one)
}

fn move_in_memory(tree: &mut MemTree, row: &str, reply: &mut Reply) {
    let (from, to) = paths_of(row, reply);
    if tree.has_room(&to) && are_apart(&from, &to) {
        moved(tree.rename(&from, &to), reply);
    } else {
        reply.push("no room");
    }
}

fn move_on_host<R: Files + Alloc<A = Global> + Clone + Drop>(
    tree: &mut FileTree<R>,
    row: &str,
    reply: &mut Reply,
)
where
    R::File: FileExt,
{
    let (from, to) = paths_of(row, reply);
    moved(tree.rename(&from, &to), reply);
}

fn fail_at(tree: &mut MemTree, row: &str, reply: &mut Reply) {
    let calls = numbers_of(reply.alloc(), row);
    let Some(calls) = reply.needed(calls) else {
        return;
    };
    match tree.fail_at(calls.as_slice()) {
        Ok(()) => reply.push("done"),
        Err(memory) => reply.lack(memory),
    }
}

fn stop_at(tree: &mut MemTree, row: &str, reply: &mut Reply) {
    tree.stop_at(reply.number(row));
    reply.push("done");
}

// What two trees told, where they told the same.
fn tell_both(
    one: Result<Option<Text>, AllocError>,
    other: Result<Option<Text>, AllocError>,
    reply: &mut Reply,
) {
    match (one, other) {
        (Ok(Some(one)), Ok(Some(other))) => {
            reply.push(one.as_str());
            if one != other {
                reply.push(" in memory, on the host ");
                reply.push(other.as_str());
            }
        }
        (_, _) => reply.refuse(),
    }
}

impl<R: Files + Alloc<A = Global> + Clone + Drop> TreeCalls<R>
where
    R::File: FileExt,
{
    /// No files in memory, and those of the host.
    pub fn new(rt: R) -> Result<TreeCalls<R>, Memory> {
        let mem = MemTree::new(rt.alloc())?;
        Ok(TreeCalls {
            mem,
            host: FileTree::new(rt),
        })
    }

    // Begins again with no files in memory.
    fn restart(&mut self, reply: &mut Reply) {
        match MemTree::new(reply.alloc()) {
            Ok(tree) => {
                self.mem = tree;
                reply.push("done");
            }
            Err(memory) => reply.lack(memory),
        }
    }

    fn in_memory(&mut self, row: &str, reply: &mut Reply) {
        let (question, rest) = cut(row);
        match question {
            "write" => write_in_memory(&mut self.mem, rest, reply),
            "move" => move_in_memory(&mut self.mem, rest, reply),
            "publish" => caches::publish_in_memory(&mut self.mem, rest, reply),
            "aside" => caches::aside_in_memory(&mut self.mem, rest, reply),
            "new" => self.restart(reply),
            "fails" => fail_at(&mut self.mem, rest, reply),
            "stops" => stop_at(&mut self.mem, rest, reply),
            _ => call(&mut self.mem, question, rest, reply),
        }
    }

    fn on_host(&mut self, row: &str, reply: &mut Reply) {
        let (question, rest) = cut(row);
        match question {
            "write" => write_on_host(&mut self.host, rest, reply),
            "move" => move_on_host(&mut self.host, rest, reply),
            "publish" => caches::publish_on_host(&mut self.host, rest, reply),
            "aside" => caches::aside_on_host(&mut self.host, rest, reply),
            _ => call(&mut self.host, question, rest, reply),
        }
    }

    fn on_both(&mut self, row: &str, reply: &mut Reply) {
        let mut one = Reply::new(reply.alloc());
        self.in_memory(row, &mut one);
        let mut other = Reply::new(reply.alloc());
        self.on_host(row, &mut other);
        tell_both(one.end(), other.end(), reply);
    }
}

impl<R: Files + Alloc<A = Global> + Clone + Drop> TreeCalls<R>
where
    R::File: FileExt,
{
    fn ask(&mut self, row: &str, reply: &mut Reply) {
        let (question, rest) = cut(row);
        match question {
            "mem" => self.in_memory(rest, reply),
            "host" => self.on_host(rest, reply),
            "both" => self.on_both(rest, reply),
            _ => reply.refuse(),
        }
    }
}

// A row with a number in place of `#`.
fn numbered(alloc: Global, row: &str, number: u32) -> Result<Text, AllocError> {
    let (front, back) = row.split_once('#').unwrap_or((row, ""));
    let row = format!(in alloc; "{front}{number}{back}")?;
    Ok(Text::from_string(row))
}

fn is_done(told: Result<Option<Text>, AllocError>) -> bool {
    match told {
        Ok(Some(told)) => told.is("done"),
        _ => false,
    }
}

impl<R: Files + Alloc<A = Global> + Clone + Drop> TreeCalls<R>
where
    R::File: FileExt,
{
    fn is_done(&mut self, alloc: Global, row: &str, number: u32) -> bool {
        let Ok(row) = numbered(alloc, row, number) else {
            return false;
        };
        let mut reply = Reply::new(alloc);
        self.ask(row.as_str(), &mut reply);
        is_done(reply.end())
    }

    fn each(&mut self, row: &str, reply: &mut Reply) {
        let (count, row) = cut(row);
        let count: u32 = reply.number(count);
        let mut done: u64 = 0;
        for number in 1..=count {
            if self.is_done(reply.alloc(), row, number) {
                done = done.saturating_add(1);
            }
        }
        reply.push_number(done);
    }
}

impl<R: Files + Alloc<A = Global> + Clone + Drop> Answering for TreeCalls<R>
where
    R::File: FileExt,
{
    fn answer(&mut self, row: &str, reply: &mut Reply) {
        let (question, rest) = cut(row);
        match question {
            "each" => self.each(rest, reply),
            _ => self.ask(row, reply),
        }
    }
}
