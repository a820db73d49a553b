//! Contents lists.

use vk_base::{List, Unread};
use vk_entry::{ContentLine, EntryFault, read_contents, write_contents};
use vk_row_text::Reply;

/// As many bytes as a row's text may have.
pub const MOST_BYTES: usize = 16_777_216;

fn tell_line(line: &ContentLine, reply: &mut Reply) {
    reply.push_path(&line.path);
    reply.push(" ");
    reply.push_number(line.size);
    reply.push(" ");
    reply.push_token(line.digest.hex().as_slice());
}

fn tell_lines(lines: &[ContentLine], reply: &mut Reply) {
    for line in lines {
        tell_line(line, reply);
        reply.push(", ");
    }
}

// Tells whether lines are written as these bytes.
fn tell_again(lines: &List<ContentLine>, bytes: &[u8], reply: &mut Reply) {
    match write_contents(reply.alloc(), lines) {
        Ok(again) if again.as_slice() == bytes => reply.push("written again"),
        Ok(_) => reply.push("written otherwise"),
        Err(memory) => reply.lack(memory),
    }
}

fn tell_number(word: &str, number: u32, reply: &mut Reply) {
    reply.push(word);
    reply.push_number(u64::from(number));
}

/// Tells why bytes are no contents list.
pub fn refused(stop: Unread<EntryFault>, reply: &mut Reply) {
    match stop {
        Unread::Fault(EntryFault::Line { n }) => tell_number("line ", n, reply),
        Unread::Fault(EntryFault::Order { n }) => tell_number("order ", n, reply),
        Unread::Fault(EntryFault::End) => reply.push("end"),
        Unread::Memory(memory) => reply.lack(memory),
    }
}

fn tell(bytes: &[u8], reply: &mut Reply) {
    if bytes.len() > MOST_BYTES {
        return reply.refuse();
    }
    match read_contents(reply.alloc(), bytes) {
        Ok(lines) => {
            tell_lines(lines.as_slice(), reply);
            tell_again(&lines, bytes, reply);
        }
        Err(stop) => refused(stop, reply),
    }
}

/// `contents TEXT`: the path, size and digest of each file that is read, and whether they are
/// written as the same bytes; or `line N`, `order N` or `end`.
pub fn answer(rest: &str, reply: &mut Reply) {
    let bytes = reply.bytes(rest);
    tell(bytes.as_slice(), reply);
}
