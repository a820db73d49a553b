//! The rows about packages, by their first word.

use crate::{builds, contents, large, plans, recipes, texts};
use vk_row_text::Reply;

/// What a row about packages asks.
#[derive(Clone, Copy)]
pub enum Kind {
    Contents,
    Recipe,
    Recipes,
    Build,
    Large,
    Text,
    Plan,
}

/// The kind that a word stands for.
pub fn kind_of(word: &str) -> Option<Kind> {
    match word {
        "contents" => Some(Kind::Contents),
        "recipe" => Some(Kind::Recipe),
        "recipe-times" => Some(Kind::Recipes),
        "build" => Some(Kind::Build),
        "large" => Some(Kind::Large),
        "abi-text" => Some(Kind::Text),
        "texts" => Some(Kind::Plan),
        _ => None,
    }
}

/// Answers a row of a kind by the words behind its first.
pub fn answer(kind: Kind, rest: &str, reply: &mut Reply) {
    match kind {
        Kind::Contents => contents::answer(rest, reply),
        Kind::Recipe => recipes::answer(rest, reply),
        Kind::Recipes => recipes::answer_many(rest, reply),
        Kind::Build => builds::answer(rest, reply),
        Kind::Large => large::answer(rest, reply),
        Kind::Text => texts::answer(rest, reply),
        Kind::Plan => plans::answer(rest, reply),
    }
}
