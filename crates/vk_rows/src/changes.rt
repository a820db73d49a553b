//! What a tree tells of what it changes.

use crate::looks::out;
use vk_base::{List, Memory, Outage, Stop, TreePath};
use vk_row_text::{Reply, cut};
use vk_tree::{MoveFault, RemoveFault, Tree};

/// Tells what a write came to.
pub fn written(answer: Result<(), Outage>, reply: &mut Reply) {
    match answer {
        Ok(()) => reply.push("done"),
        Err(outage) => out(outage, reply),
    }
}

/// Tells what a move came to.
pub fn moved(answer: Result<(), Stop<MoveFault>>, reply: &mut Reply) {
    match answer {
        Ok(()) => reply.push("done"),
        Err(Stop::Fault(MoveFault::Missing)) => reply.push("missing"),
        Err(Stop::Fault(MoveFault::Exists)) => reply.push("exists"),
        Err(Stop::Failed) => reply.push("failed"),
        Err(Stop::Memory(memory)) => reply.lack(memory),
    }
}

/// `remove PATH`: removes a file.
pub fn remove<T: Tree>(tree: &mut T, row: &str, reply: &mut Reply) {
    let path = reply.path(row);
    match tree.remove(&path) {
        Ok(()) => reply.push("done"),
        Err(Stop::Fault(RemoveFault::Missing)) => reply.push("missing"),
        Err(Stop::Failed) => reply.push("failed"),
        Err(Stop::Memory(memory)) => reply.lack(memory),
    }
}

/// The two paths of a move.
pub fn paths_of(row: &str, reply: &mut Reply) -> (TreePath, TreePath) {
    let (from, to) = cut(row);
    (reply.path(from), reply.path(to))
}

/// The bytes of words; `N*WORD` stands for the bytes of a word so many times.
pub fn bytes_of(words: &str, reply: &mut Reply) -> List<u8> {
    let Some((count, word)) = words.split_once('*') else {
        return reply.bytes(words);
    };
    let count: u32 = reply.number(count);
    let word = reply.bytes(word);
    repeated(count, word.as_slice(), reply)
}

fn repeated(count: u32, word: &[u8], reply: &mut Reply) -> List<u8> {
    let mut bytes = List::new(reply.alloc());
    for _ in 0..count {
        if let Err(lack) = bytes.extend_from_slice(word) {
            reply.lack(Memory::from(lack));
        }
    }
    bytes
}
