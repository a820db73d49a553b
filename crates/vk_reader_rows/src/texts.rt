//! ABI texts.

use crate::contents::MOST_BYTES;
use vk_abi_text::{AbiFault, AbiInput, abi_text, read_abi};
use vk_base::Unread;
use vk_row_text::Reply;

// Tells whether the text of an input is these bytes.
fn tell_again(input: &AbiInput, bytes: &[u8], reply: &mut Reply) {
    match abi_text(reply.alloc(), &input.source()) {
        Ok(again) if again.as_slice() == bytes => reply.push("reads, written again"),
        Ok(_) => reply.push("reads, written otherwise"),
        Err(memory) => reply.lack(memory),
    }
}

fn refused(stop: Unread<AbiFault>, reply: &mut Reply) {
    match stop {
        Unread::Fault(AbiFault::Line { n }) => {
            reply.push("line ");
            reply.push_number(u64::from(n));
        }
        Unread::Memory(memory) => reply.lack(memory),
    }
}

fn tell(bytes: &[u8], reply: &mut Reply) {
    if bytes.len() > MOST_BYTES {
        return reply.refuse();
    }
    match read_abi(reply.alloc(), bytes) {
        Ok(input) => tell_again(&input, bytes, reply),
        Err(stop) => refused(stop, reply),
    }
}

/// `abi-text TEXT`: whether the input that is read is written as the same bytes, or `line N`.
pub fn answer(rest: &str, reply: &mut Reply) {
    let bytes = reply.bytes(rest);
    tell(bytes.as_slice(), reply);
}
