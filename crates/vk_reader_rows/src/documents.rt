//! JSON documents, what stands in them, and the words of faults.

use crate::shows::{tell_reads, tell_value};
use vk_json::{Doc, Scratch, Value, Why, as_bool, as_number, as_text, items, keys, member};
use vk_row_text::{Reply, cut};

/// What is asked of documents.
#[derive(Clone, Copy)]
pub enum Question {
    Read,
    Keys,
    Member,
    Item,
    Word,
}

fn reads(rest: &str, reply: &mut Reply) {
    let bytes = reply.bytes(rest);
    let mut scratch = Scratch::new(reply.alloc());
    let read = Doc::read(reply.alloc(), bytes.as_slice(), &mut scratch);
    tell_reads(read, reply);
}

/// The document of a row that has to have it.
pub fn document_of<'a>(
    bytes: &'a [u8],
    scratch: &'a mut Scratch,
    reply: &mut Reply,
) -> Option<Doc<'a>> {
    let read = Doc::read(reply.alloc(), bytes, scratch);
    reply.needed(read)
}

fn push_number(value: &Value, reply: &mut Reply) {
    match as_number(value) {
        Some(number) => {
            reply.push("number ");
            reply.push_number(u64::from(number));
        }
        None => reply.push("another"),
    }
}

fn push_test(value: &Value, reply: &mut Reply) {
    match as_bool(value) {
        Some(test) => reply.push(if test { "true" } else { "false" }),
        None => push_number(value, reply),
    }
}

fn push_plain(value: &Value, reply: &mut Reply) {
    match as_text(value) {
        Some(text) => {
            reply.push("text ");
            reply.push_token(text.as_bytes());
        }
        None => push_test(value, reply),
    }
}

fn push_value(value: &Value, reply: &mut Reply) {
    match items(value) {
        Some(items) => {
            reply.push("list of ");
            reply.push_number(items.len() as u64);
        }
        None => push_plain(value, reply),
    }
}

fn push_found(value: Option<&Value>, reply: &mut Reply) {
    match value {
        Some(value) => push_value(value, reply),
        None => reply.push("none"),
    }
}

fn tell_member(rest: &str, reply: &mut Reply) {
    let (key, rest) = cut(rest);
    let bytes = reply.bytes(rest);
    let mut scratch = Scratch::new(reply.alloc());
    if let Some(document) = document_of(bytes.as_slice(), &mut scratch, reply) {
        push_found(member(document.value(), key), reply);
    }
}

fn item<'b, 'a>(value: &'b Value<'a>, key: &str, place: usize) -> Option<&'b Value<'a>> {
    items(member(value, key)?)?.get(place)
}

fn tell_item(rest: &str, reply: &mut Reply) {
    let (key, rest) = cut(rest);
    let (place, rest) = cut(rest);
    let place = reply.number(place);
    let bytes = reply.bytes(rest);
    let mut scratch = Scratch::new(reply.alloc());
    if let Some(document) = document_of(bytes.as_slice(), &mut scratch, reply) {
        push_found(item(document.value(), key, place), reply);
    }
}

fn push_keys(value: &Value, reply: &mut Reply) {
    match keys(reply.alloc(), value) {
        Ok(Some(names)) => tell_value(&names, reply),
        Ok(None) => reply.push("none"),
        Err(memory) => reply.lack(memory),
    }
}

fn tell_keys(rest: &str, reply: &mut Reply) {
    let bytes = reply.bytes(rest);
    let mut scratch = Scratch::new(reply.alloc());
    if let Some(document) = document_of(bytes.as_slice(), &mut scratch, reply) {
        push_keys(document.value(), reply);
    }
}

fn tell_word(rest: &str, reply: &mut Reply) {
    let text = reply.texts(rest);
    match Why::read(text.as_str()) {
        Some(why) => {
            let word = why.word(reply.alloc());
            reply.push_made(word);
        }
        None => reply.push("none"),
    }
}

/// - `read FILE`: whether it reads, or the fault;
/// - `keys FILE`: the keys of the object, in byte order; `member KEY FILE`: what stands there;
/// - `item KEY N FILE`: the item with this number of the list that stands there;
/// - `word TEXT`: the word of the fault that is read from the text, or `none`.
pub fn answer(question: Question, rest: &str, reply: &mut Reply) {
    match question {
        Question::Read => reads(rest, reply),
        Question::Keys => tell_keys(rest, reply),
        Question::Member => tell_member(rest, reply),
        Question::Item => tell_item(rest, reply),
        Question::Word => tell_word(rest, reply),
    }
}
