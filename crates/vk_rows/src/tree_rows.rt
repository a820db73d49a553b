//! What a tree in memory answers.

use crate::lines::tell_paths;
use vk_base::{Stop, TreePath};
use vk_row_text::{Reply, cut};
use vk_tree::{MemTree, ReadFault, Tree};

// Tells why a file wasn't read.
fn stopped(stop: Stop<ReadFault>, reply: &mut Reply) {
    match stop {
        Stop::Fault(ReadFault::Missing) => reply.push("missing"),
        Stop::Fault(ReadFault::TooLarge) => reply.push("too large"),
        Stop::Failed => reply.push("failed"),
        Stop::Memory(memory) => reply.lack(memory),
    }
}

fn tell_read(tree: &mut MemTree, path: &TreePath, limit: u64, reply: &mut Reply) {
    match tree.read(path, limit) {
        Ok(bytes) => reply.push_token(bytes.as_slice()),
        Err(stop) => stopped(stop, reply),
    }
}

fn read(tree: &mut MemTree, row: &str, reply: &mut Reply) {
    let (path, limit) = cut(row);
    let limit = reply.number(limit);
    let path = reply.path(path);
    if !reply.is_stopped() {
        tell_read(tree, &path, limit, reply);
    }
}

fn room(tree: &MemTree, row: &str, reply: &mut Reply) {
    let path = reply.path(row);
    reply.push_test(tree.has_room(&path));
}

fn file(tree: &MemTree, row: &str, reply: &mut Reply) {
    let path = reply.path(row);
    match tree.file(&path) {
        Some(bytes) => reply.push_token(bytes),
        None => reply.push("none"),
    }
}

fn stop(tree: &mut MemTree, row: &str, reply: &mut Reply) {
    reply.silence();
    tree.stop_at(reply.number(row));
}

/// - `read PATH LIMIT`: the bytes that a call reads, or the fault;
/// - `room PATH`: whether a file may stand there; `file PATH`: the bytes that stand there;
/// - `log`: the paths that it was asked for; `changes`, `faults`: how many there were;
/// - `stops N`: it fails from this call on.
pub fn answer(tree: &mut MemTree, row: &str, reply: &mut Reply) {
    let (question, rest) = cut(row);
    match question {
        "read" => read(tree, rest, reply),
        "file" => file(tree, rest, reply),
        "stops" => stop(tree, rest, reply),
        "log" => tell_paths(tree.logged(), reply),
        "changes" => reply.push_number(tree.changed()),
        "faults" => reply.push_number(tree.faults()),
        "room" => room(tree, rest, reply),
        _ => reply.refuse(),
    }
}
