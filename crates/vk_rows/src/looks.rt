//! What a tree tells of what stands in it.

use vk_base::{List, Outage, Stop, TreePath};
use vk_row_text::{Reply, cut};
use vk_tree::{Kind, ListFault, Listed, ReadFault, Tree};

// The most pieces that are asked for.
const MOST_PIECES: u32 = 100;

/// Tells why a call wasn't done.
pub fn out(outage: Outage, reply: &mut Reply) {
    match outage {
        Outage::Failed => reply.push("failed"),
        Outage::Memory(memory) => reply.lack(memory),
    }
}

fn unread(stop: Stop<ReadFault>, reply: &mut Reply) {
    match stop {
        Stop::Fault(ReadFault::Missing) => reply.push("missing"),
        Stop::Fault(ReadFault::TooLarge) => reply.push("too large"),
        Stop::Failed => reply.push("failed"),
        Stop::Memory(memory) => reply.lack(memory),
    }
}

fn unlisted(stop: Stop<ListFault>, reply: &mut Reply) {
    match stop {
        Stop::Fault(ListFault::Missing) => reply.push("missing"),
        Stop::Fault(ListFault::Many) => reply.push("many"),
        Stop::Failed => reply.push("failed"),
        Stop::Memory(memory) => reply.lack(memory),
    }
}

fn tell_bytes(bytes: Result<List<u8>, Stop<ReadFault>>, reply: &mut Reply) {
    match bytes {
        Ok(bytes) if bytes.is_empty() => reply.push("no bytes"),
        Ok(bytes) => reply.push_token(bytes.as_slice()),
        Err(stop) => unread(stop, reply),
    }
}

fn tell_entries(entries: &[Listed], reply: &mut Reply) {
    for entry in entries {
        if !reply.is_empty() {
            reply.push(" ");
        }
        reply.push_token(entry.name.as_bytes());
        if entry.folder {
            reply.push("/");
        }
    }
}

fn kind<T: Tree>(tree: &mut T, row: &str, reply: &mut Reply) {
    let path = reply.path(row);
    match tree.kind(&path) {
        Ok(Kind::File) => reply.push("file"),
        Ok(Kind::Folder) => reply.push("folder"),
        Ok(Kind::Absent) => reply.push("absent"),
        Err(outage) => out(outage, reply),
    }
}

fn read<T: Tree>(tree: &mut T, row: &str, reply: &mut Reply) {
    let (path, limit) = cut(row);
    let limit = reply.number(limit);
    let path = reply.path(path);
    tell_bytes(tree.read(&path, limit), reply);
}

fn piece<T: Tree>(tree: &mut T, row: &str, reply: &mut Reply) {
    let (path, row) = cut(row);
    let (at, most) = cut(row);
    let at = reply.number(at);
    let most = reply.number(most);
    let path = reply.path(path);
    tell_bytes(tree.piece(&path, at, most), reply);
}

fn list<T: Tree>(tree: &mut T, row: &str, reply: &mut Reply) {
    let path = reply.path(row);
    match tree.list(&path) {
        Ok(entries) => tell_entries(entries.as_slice(), reply),
        Err(stop) => unlisted(stop, reply),
    }
}

fn listed<T: Tree>(tree: &mut T, row: &str, reply: &mut Reply) {
    let path = reply.path(row);
    match tree.list(&path) {
        Ok(entries) => reply.push_number(entries.len() as u64),
        Err(stop) => unlisted(stop, reply),
    }
}

// Tells how long the next piece is, and whether another may follow.
fn next_piece<T: Tree>(
    tree: &mut T,
    path: &TreePath,
    at: u64,
    most: u32,
    reply: &mut Reply,
) -> u64 {
    if at > 0 {
        reply.push(" ");
    }
    match tree.piece(path, at, most) {
        Ok(bytes) => {
            reply.push_number(bytes.len() as u64);
            bytes.len() as u64
        }
        Err(stop) => {
            unread(stop, reply);
            0
        }
    }
}

fn pieces<T: Tree>(tree: &mut T, row: &str, reply: &mut Reply) {
    let (path, most) = cut(row);
    let most: u32 = reply.number(most);
    let path = reply.path(path);
    let mut at: u64 = 0;
    for _ in 0..MOST_PIECES {
        let length = next_piece(tree, &path, at, most, reply);
        if length < u64::from(most) {
            return;
        }
        at = at.saturating_add(length);
    }
}

/// - `kind PATH`: what stands there;
/// - `read PATH LIMIT`, `piece PATH AT MOST`: the bytes of a file;
/// - `pieces PATH MOST`: how long its pieces are, from the first one to the first that is shorter;
/// - `list PATH`: the entries of a folder, those that are folders with `/`;
/// - `listed PATH`: how many they are.
pub fn answer<T: Tree>(tree: &mut T, question: &str, row: &str, reply: &mut Reply) {
    match question {
        "kind" => kind(tree, row, reply),
        "read" => read(tree, row, reply),
        "piece" => piece(tree, row, reply),
        "pieces" => pieces(tree, row, reply),
        "list" => list(tree, row, reply),
        "listed" => listed(tree, row, reply),
        _ => reply.refuse(),
    }
}
