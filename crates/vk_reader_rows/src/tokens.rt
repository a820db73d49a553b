//! Tokens, texts, lists and decimal numbers. Bytes are told as numbers.

use crate::shows::{tell_or_none, tell_value};
use std::alloc::{AllocError, Global};
use vk_base::{List, Memory, Text, Unread, read_token, read_u32, read_u64};
use vk_row_text::{NoRow, Reply, cut, number_of};

/// What is asked of tokens and numbers.
#[derive(Clone, Copy)]
pub enum Question {
    Of,
    Read,
    Grow,
    Double,
    Small,
    Large,
}

fn push_numbers(bytes: &mut List<u8>, rest: &str) -> Result<(), Unread<NoRow>> {
    for number in rest.split(' ') {
        bytes.push(number_of(number)?)?;
    }
    Ok(())
}

fn numbers(rest: &str, reply: &mut Reply) -> List<u8> {
    let mut bytes = List::new(reply.alloc());
    reply.needed(push_numbers(&mut bytes, rest));
    bytes
}

fn of(rest: &str, reply: &mut Reply) {
    let bytes = numbers(rest, reply);
    reply.push_token(bytes.as_slice());
}

fn read(rest: &str, reply: &mut Reply) {
    match read_token(reply.alloc(), rest) {
        Ok(Some(bytes)) => tell_value(&bytes, reply),
        Ok(None) => reply.push("none"),
        Err(memory) => reply.lack(memory),
    }
}

fn grown(alloc: Global, one: &str, other: &str) -> Result<Text, Memory> {
    let mut text = Text::from_str(alloc, one)?;
    text.push_str(other)?;
    Ok(text.clone()?)
}

fn grow(rest: &str, reply: &mut Reply) {
    let (one, other) = cut(rest);
    let grown = grown(reply.alloc(), one, other);
    reply.push_made(grown);
}

fn doubled(bytes: &mut List<u8>) -> Result<(), AllocError> {
    match bytes.pop() {
        Some(last) => bytes.extend_from_slice(&[last, last]),
        None => Ok(()),
    }
}

fn double(rest: &str, reply: &mut Reply) {
    let mut bytes = numbers(rest, reply);
    if let Err(lack) = doubled(&mut bytes) {
        reply.lack(Memory::from(lack));
    }
    tell_value(&bytes, reply);
}

fn small(rest: &str, reply: &mut Reply) {
    let text = reply.texts(rest);
    tell_or_none(read_u32(text.as_str()).map(u64::from), reply);
}

fn large(rest: &str, reply: &mut Reply) {
    let text = reply.texts(rest);
    tell_or_none(read_u64(text.as_str()), reply);
}

/// - `token of N ..`: the token of these bytes;
/// - `token read TEXT`: the bytes of which it is the token, or `none`;
/// - `token grow TEXT TEXT`: the first with the second behind it;
/// - `token double N ..`: these bytes, with the last one twice;
/// - `decimal u32 TEXT`, `decimal u64 TEXT`: the number of 32 or of 64 bits that the text is, or
///   `none`.
pub fn answer(question: Question, rest: &str, reply: &mut Reply) {
    match question {
        Question::Of => of(rest, reply),
        Question::Read => read(rest, reply),
        Question::Grow => grow(rest, reply),
        Question::Double => double(rest, reply),
        Question::Small => small(rest, reply),
        Question::Large => large(rest, reply),
    }
}
