//! Recorded builds.

use crate::contents::MOST_BYTES;
use vk_base::{Text, Unread};
use vk_recipe::read_recipe;
use vk_row_text::{Reply, cut};

fn tell(bytes: &[u8], reply: &mut Reply) {
    if bytes.len() > MOST_BYTES {
        return reply.refuse();
    }
    match read_recipe(reply.alloc(), bytes) {
        Ok(recipe) => {
            reply.push("reads ");
            reply.push_number(recipe.steps.len() as u64);
        }
        Err(Unread::Fault(fault)) => reply.push_fault(&fault.place, fault.why),
        Err(Unread::Memory(memory)) => reply.lack(memory),
    }
}

/// `recipe JSON`: `reads` and the number of steps, or the place and the word of the first fault.
pub fn answer(rest: &str, reply: &mut Reply) {
    let bytes = reply.bytes(rest);
    tell(bytes.as_slice(), reply);
}

fn push(text: &mut Text, more: &str, reply: &mut Reply) {
    if let Err(lack) = text.push_str(more) {
        reply.lack(lack.into());
    }
}

// A recorded build that has a step so many times.
fn many(count: u32, step: &str, reply: &mut Reply) -> Text {
    let mut text = Text::new(reply.alloc());
    push(&mut text, "{\"steps\":[", reply);
    for n in 0..count {
        if n > 0 {
            push(&mut text, ",", reply);
        }
        push(&mut text, step, reply);
    }
    push(&mut text, "]}", reply);
    text
}

/// `recipe-times N STEP`: the same of a recorded build that has a step so many times.
pub fn answer_many(rest: &str, reply: &mut Reply) {
    let (count, step) = cut(rest);
    let count = reply.number(count);
    let text = many(count, step, reply);
    tell(text.as_bytes(), reply);
}
