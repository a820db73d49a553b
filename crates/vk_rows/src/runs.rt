//! Runs of the planner: the words, and how a run ended.

use std::alloc::Global;
use std::str;
use vk_base::{List, Memory, Text, Unread, Word};
use vk_row_text::{NoRow, Reply, bytes_of, cut};
use vk_tree::MemSink;

/// Both sinks of a run.
#[derive(Drop)]
pub struct Sinks {
    pub out: MemSink,
    pub err: MemSink,
}

/// How many bytes each of the two sinks takes.
#[derive(Clone, Copy)]
pub struct Room {
    pub out: usize,
    pub err: usize,
}

/// Room enough for a row's report, and for a line of an error.
pub const ROOM: Room = Room {
    out: 4096,
    err: 100,
};

impl Sinks {
    /// Sinks that take so many bytes.
    pub fn new(alloc: Global, room: Room) -> Result<Sinks, Memory> {
        let out = MemSink::new(alloc, room.out)?;
        let err = MemSink::new(alloc, room.err)?;
        Ok(Sinks { out, err })
    }
}

/// `room OUT ERR`: how many bytes the two sinks take.
pub fn room_of(row: &str, reply: &mut Reply) -> Room {
    let (out, err) = cut(row);
    Room {
        out: reply.number(out),
        err: reply.number(err),
    }
}

// The word of the command line that a token stands for.
fn word_of(alloc: Global, word: &str) -> Result<Word, Unread<NoRow>> {
    let bytes = bytes_of(alloc, word)?;
    match String::from_utf8(bytes.into_vec()) {
        Ok(text) => Ok(Word::Text(Text::from_string(text))),
        Err(_) => Ok(Word::NotText),
    }
}

/// The words of a row, which are none where it ends.
pub fn words_of(alloc: Global, row: &str) -> Result<List<Word>, Unread<NoRow>> {
    let mut words = List::new(alloc);
    if row.is_empty() {
        return Ok(words);
    }
    for word in row.split(' ') {
        words.push(word_of(alloc, word)?)?;
    }
    Ok(words)
}

fn push_lines(mark: &str, lines: &str, reply: &mut Reply) {
    for line in lines.split('\n') {
        reply.push("\n");
        reply.push(mark);
        reply.push(line);
    }
}

fn push_text(mark: &str, text: &str, reply: &mut Reply) {
    match text.strip_suffix('\n') {
        Some(lines) => push_lines(mark, lines, reply),
        None => {
            push_lines(mark, text, reply);
            push_lines(mark, "(cut short)", reply);
        }
    }
}

// Puts what a sink took at the end, each line behind a mark.
fn push_taken(mark: &str, bytes: &[u8], reply: &mut Reply) {
    if bytes.is_empty() {
        return;
    }
    match str::from_utf8(bytes) {
        Ok(text) => push_text(mark, text, reply),
        Err(_) => push_lines(mark, "(no text)", reply),
    }
}

/// Tells how a run ended: its status, and the lines that both sinks took.
pub fn tell_ended(status: u8, sinks: &Sinks, reply: &mut Reply) {
    reply.push("exit ");
    reply.push_number(u64::from(status));
    push_taken("", sinks.out.bytes(), reply);
    push_taken("err: ", sinks.err.bytes(), reply);
}
