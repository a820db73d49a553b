//! Platform expressions, and whether they are true where there are marks.

use crate::shows::{refused, tell};
use std::alloc::Global;
use vk_base::{List, Text, Unread};
use vk_expr::{Marks, read, truth};
use vk_row_text::{NoRow, Reply, cut, text_of};

/// What is asked of expressions.
#[derive(Clone, Copy)]
pub enum Question {
    Read,
    Truth,
    Has,
}

// As many bytes as a row's expression may have.
const MOST_BYTES: usize = 1_000_000;

fn push_marks(alloc: Global, names: &mut List<Text>, word: &str) -> Result<(), Unread<NoRow>> {
    for name in word.split(',') {
        let name = text_of(alloc, name)?;
        names.push(name)?;
    }
    Ok(())
}

// The marks of a word, with commas between.
fn marks_of(word: &str, reply: &mut Reply) -> Marks {
    let mut names = List::new(reply.alloc());
    reply.needed(push_marks(reply.alloc(), &mut names, word));
    Marks { names }
}

fn tell_read(text: &str, reply: &mut Reply) {
    if text.len() > MOST_BYTES {
        return reply.refuse();
    }
    tell(read(reply.alloc(), text), reply);
}

fn reads(rest: &str, reply: &mut Reply) {
    let text = reply.texts(rest);
    tell_read(text.as_str(), reply);
}

fn tell_truth(text: &str, marks: &Marks, reply: &mut Reply) {
    if text.len() > MOST_BYTES {
        return reply.refuse();
    }
    match read(reply.alloc(), text) {
        Ok(expression) => reply.push_test(truth(&expression, marks)),
        Err(stop) => refused(stop, reply),
    }
}

fn is_true(rest: &str, reply: &mut Reply) {
    let (marks, words) = cut(rest);
    let marks = marks_of(marks, reply);
    let text = reply.texts(words);
    tell_truth(text.as_str(), &marks, reply);
}

fn has(rest: &str, reply: &mut Reply) {
    let (marks, name) = cut(rest);
    let marks = marks_of(marks, reply);
    reply.push_test(marks.has(name));
}

/// - `read TEXT`: the expression in its printed form, or the fault;
/// - `truth MARKS TEXT`: whether it is true where there are these marks, with commas between;
/// - `has MARKS NAME`: whether there is a mark of this name.
pub fn answer(question: Question, rest: &str, reply: &mut Reply) {
    match question {
        Question::Read => reads(rest, reply),
        Question::Truth => is_true(rest, reply),
        Question::Has => has(rest, reply),
    }
}
