//! Paths of a tree.

use crate::shows::{tell, tell_order};
use std::alloc::Global;
use vk_base::{Memory, Text, TreePath};
use vk_row_text::{Reply, cut};

/// What is asked of paths.
#[derive(Clone, Copy)]
pub enum Question {
    Read,
    Letters,
    Parts,
    Join,
    Begins,
    Has,
    Overlaps,
    Order,
    Child,
}

// More steps up than a row's path has.
const MANY_STEPS: u32 = 1_000_000;

fn read(rest: &str, reply: &mut Reply) {
    let text = reply.texts(rest);
    tell(TreePath::read(reply.alloc(), text.as_str()), reply);
}

fn letters(alloc: Global, count: u32) -> Result<Text, Memory> {
    let mut text = Text::new(alloc);
    for _ in 0..count {
        text.push_str("a")?;
    }
    Ok(text)
}

fn read_letters(rest: &str, reply: &mut Reply) {
    let count = reply.number(rest);
    match letters(reply.alloc(), count) {
        Ok(text) => tell(TreePath::read(reply.alloc(), text.as_str()), reply),
        Err(memory) => reply.lack(memory),
    }
}

fn parts(rest: &str, reply: &mut Reply) {
    let path = reply.path(rest);
    reply.push(if path.is_rooted() {
        "rooted, "
    } else {
        "not rooted, "
    });
    reply.push_number(u64::from(path.steps_up()));
    reply.push(" steps up, ");
    reply.push_number(path.part_count() as u64);
    reply.push(" parts");
}

fn push_whole(whole: Result<TreePath, Memory>, reply: &mut Reply) {
    match whole {
        Ok(path) => reply.push_path(&path),
        Err(memory) => reply.lack(memory),
    }
}

fn push_joined(from: &TreePath, more: &TreePath, reply: &mut Reply) {
    if from.steps_up() > MANY_STEPS {
        return reply.refuse();
    }
    if more.steps_up() > MANY_STEPS {
        return reply.refuse();
    }
    push_whole(from.join(reply.alloc(), more), reply);
}

// The two paths of a row.
fn two(rest: &str, reply: &mut Reply) -> (TreePath, TreePath) {
    let (one, other) = cut(rest);
    (reply.path(one), reply.path(other))
}

fn join(rest: &str, reply: &mut Reply) {
    let (one, other) = two(rest, reply);
    push_joined(&one, &other, reply);
}

fn begins(rest: &str, reply: &mut Reply) {
    let (one, other) = two(rest, reply);
    reply.push_test(one.begins(&other));
}

fn has(rest: &str, reply: &mut Reply) {
    let (folder, path) = two(rest, reply);
    reply.push_test(folder.has_in_it(&path));
}

fn overlaps(rest: &str, reply: &mut Reply) {
    let (one, other) = two(rest, reply);
    reply.push_test(one.overlaps(&other));
}

fn order(rest: &str, reply: &mut Reply) {
    let (one, other) = two(rest, reply);
    tell_order(Some(one.cmp(&other)), reply);
}

fn child(rest: &str, reply: &mut Reply) {
    let folder = reply.path(rest);
    push_whole(folder.child(reply.alloc(), "a"), reply);
}

/// - `read TEXT`: the path, or the fault; `letters N`: the same of so many letters;
/// - `parts PATH`: where it begins, and how many parts it has;
/// - `join PATH PATH`, `begins PATH PATH`, `has PATH PATH`, `overlaps PATH PATH`,
///   `order PATH PATH`: what the first is to the second;
/// - `child PATH`: what is called `a` in that folder.
pub fn answer(question: Question, rest: &str, reply: &mut Reply) {
    match question {
        Question::Read => read(rest, reply),
        Question::Letters => read_letters(rest, reply),
        Question::Parts => parts(rest, reply),
        Question::Join => join(rest, reply),
        Question::Begins => begins(rest, reply),
        Question::Has => has(rest, reply),
        Question::Overlaps => overlaps(rest, reply),
        Question::Order => order(rest, reply),
        Question::Child => child(rest, reply),
    }
}
