//! What stands in a cache.

use crate::items::Item;
use crate::tells::{harm_word, tell_over, tell_package};
use std::alloc::Global;
use vk_base::{Limit, List, Memory, Stop, TreePath};
use vk_look::Look;
use vk_looking::look;
use vk_row_text::Reply;
use vk_tree::{ListFault, Listed, MemTree, Tree};
use vk_walk::walk;

// The path of a file that a folder has, as it is seen from there.
fn path_in(alloc: Global, folder: &TreePath, seen: &TreePath) -> Result<TreePath, Memory> {
    if folder.steps_up() > 0 || seen.steps_up() > 0 {
        return Err(Memory::without_allocation());
    }
    folder.join(alloc, seen)
}

fn tell_file(tree: &MemTree, path: &TreePath, reply: &mut Reply) {
    if !reply.is_empty() {
        reply.push("\n");
    }
    reply.push_path(path);
    reply.push("=");
    match tree.file(path) {
        Some(bytes) => reply.push_token(bytes),
        None => reply.refuse(),
    }
}

fn tell_seen(tree: &MemTree, folder: &TreePath, seen: &TreePath, reply: &mut Reply) {
    match path_in(reply.alloc(), folder, seen) {
        Ok(path) => tell_file(tree, &path, reply),
        Err(memory) => reply.lack(memory),
    }
}

fn tell_files(tree: &MemTree, folder: &TreePath, paths: &List<TreePath>, reply: &mut Reply) {
    for path in paths.iter() {
        tell_seen(tree, folder, path, reply);
    }
    if paths.is_empty() {
        reply.push("none");
    }
}

/// Tells the files below a folder and their bytes, each on a line.
pub fn files(tree: &mut MemTree, folder: &TreePath, reply: &mut Reply) {
    match walk(reply.alloc(), tree, folder) {
        Ok(paths) => tell_files(tree, folder, &paths, reply),
        Err(stop) => {
            drop(stop);
            reply.push("none");
        }
    }
}

// The names in a folder, which are none where it isn't there.
fn listed(tree: &mut MemTree, folder: &TreePath, reply: &mut Reply) -> List<Listed> {
    match tree.list(folder) {
        Ok(names) => names,
        Err(Stop::Fault(ListFault::Missing)) => List::new(reply.alloc()),
        Err(Stop::Memory(memory)) => {
            reply.lack(memory);
            List::new(reply.alloc())
        }
        Err(_) => {
            reply.refuse();
            List::new(reply.alloc())
        }
    }
}

/// Tells how many names a folder has.
pub fn count(tree: &mut MemTree, folder: &TreePath, reply: &mut Reply) {
    let names = listed(tree, folder, reply);
    reply.push_number(names.len() as u64);
}

/// Tells the names that a folder has, each behind a blank, or ` none`.
pub fn names(tree: &mut MemTree, folder: &TreePath, reply: &mut Reply) {
    let names = listed(tree, folder, reply);
    for name in names.iter() {
        reply.push(" ");
        reply.push_token(name.name.as_bytes());
    }
    if names.is_empty() {
        reply.push(" none");
    }
}

fn tell_look(found: Look, reply: &mut Reply) {
    match found {
        Look::Hit(package) => {
            reply.push("whole");
            tell_package(&package, reply);
        }
        Look::Absent => reply.push("absent"),
        Look::Damaged(harm) => {
            reply.push("damaged ");
            reply.push(harm_word(harm));
        }
        Look::Collision(text) => {
            reply.push("collision ");
            reply.push_token(text.as_slice());
        }
    }
}

fn tell_found(found: Result<Look, Stop<Limit>>, reply: &mut Reply) {
    match found {
        Ok(found) => tell_look(found, reply),
        Err(Stop::Fault(limit)) => tell_over(limit, reply),
        Err(Stop::Failed) => reply.push("failed"),
        Err(Stop::Memory(memory)) => reply.lack(memory),
    }
}

/// Tells what a look at the entry of an item finds.
pub fn entry(tree: &mut MemTree, cache: &TreePath, item: &Item, reply: &mut Reply) {
    let alloc: Global = reply.alloc();
    let found = look(
        alloc,
        tree,
        cache,
        &item.digest,
        item.text.as_slice(),
        u64::MAX,
    );
    tell_found(found, reply);
}
