//! What is told of a walk.

use vk_base::{List, Stop, TreePath};
use vk_row_text::Reply;
use vk_tree::Tree;
use vk_walk::{WalkFault, walk};

fn unwalked(stop: Stop<WalkFault>, reply: &mut Reply) {
    match stop {
        Stop::Fault(WalkFault::Missing) => reply.push("missing"),
        Stop::Fault(WalkFault::Deep) => reply.push("deep"),
        Stop::Fault(WalkFault::Entries) => reply.push("entries"),
        Stop::Fault(WalkFault::Files) => reply.push("files"),
        Stop::Failed => reply.push("failed"),
        Stop::Memory(memory) => reply.lack(memory),
    }
}

fn tell_paths(paths: &List<TreePath>, reply: &mut Reply) {
    for path in paths.iter() {
        if !reply.is_empty() {
            reply.push(" ");
        }
        reply.push_path(path);
    }
}

/// `walk PATH`: the files below a folder, or the limit that is passed.
pub fn answer<T: Tree>(tree: &mut T, row: &str, reply: &mut Reply) {
    let path = reply.path(row);
    match walk(reply.alloc(), tree, &path) {
        Ok(paths) => tell_paths(&paths, reply),
        Err(stop) => unwalked(stop, reply),
    }
}

/// `walked PATH`: how many they are.
pub fn count<T: Tree>(tree: &mut T, row: &str, reply: &mut Reply) {
    let path = reply.path(row);
    match walk(reply.alloc(), tree, &path) {
        Ok(paths) => reply.push_number(paths.len() as u64),
        Err(stop) => unwalked(stop, reply),
    }
}
