//! The answer to a row, as it grows. That a row can't be answered is kept until the end, so that
//! what asks and tells needs no exits of its own.

use crate::wording::{bytes_of, number_of, path_of, text_of, texts_of};
use std::alloc::{AllocError, Global};
use std::fmt;
use std::str::FromStr;
use vk_base::{List, Memory, Text, TreePath, Unread, token};

/// A row is malformed, or what it says can't be done.
#[derive(Clone, Copy, Debug, PartialEq, Eq, Drop)]
pub struct NoRow;

/// The answer to a row, which may have several lines.
#[derive(Drop)]
pub struct Reply {
    alloc: Global,
    told: Text,
    is_silent: bool,
    stop: Option<Unread<NoRow>>,
}

impl Reply {
    /// Nothing told yet.
    pub fn new(alloc: Global) -> Reply {
        Reply {
            alloc,
            told: Text::new(alloc),
            is_silent: false,
            stop: None,
        }
    }

    /// Where memory comes from.
    pub fn alloc(&self) -> Global {
        self.alloc
    }

    /// The row does something, and nothing is to be told of it.
    pub fn silence(&mut self) {
        self.is_silent = true;
    }

    /// The row is malformed, or what it says can't be done.
    pub fn refuse(&mut self) {
        self.stop = Some(Unread::Fault(NoRow));
    }

    /// Memory ran out.
    pub fn lack(&mut self, memory: Memory) {
        self.stop = Some(Unread::Memory(memory));
    }

    /// Puts text at the end.
    pub fn push(&mut self, text: &str) {
        if let Err(lack) = self.told.push_str(text) {
            self.stop = Some(Unread::from(lack));
        }
    }

    /// Puts what was made at the end.
    pub fn push_made(&mut self, made: Result<Text, Memory>) {
        match made {
            Ok(text) => self.push(text.as_str()),
            Err(memory) => self.lack(memory),
        }
    }

    /// Puts the token of bytes at the end.
    pub fn push_token(&mut self, bytes: &[u8]) {
        let made = token(self.alloc, bytes);
        self.push_made(made);
    }

    /// Puts a value at the end as it is printed.
    pub fn push_printed<D: fmt::Display>(&mut self, value: &D) {
        match format!(in self.alloc; "{value}") {
            Ok(text) => self.push(text.as_str()),
            Err(lack) => self.stop = Some(Unread::from(lack)),
        }
    }

    /// Puts a number at the end.
    pub fn push_number(&mut self, number: u64) {
        self.push_printed(&number);
    }

    /// Puts `yes` or `no` at the end.
    pub fn push_test(&mut self, test: bool) {
        self.push(if test { "yes" } else { "no" });
    }

    /// Whether nothing is told yet.
    pub fn is_empty(&self) -> bool {
        self.told.is_empty()
    }

    /// What is read, of a row that has to have it: where there is a fault, the row isn't answered.
    pub fn needed<T, F: Drop>(&mut self, reading: Result<T, Unread<F>>) -> Option<T> {
        match reading {
            Ok(value) => Some(value),
            Err(Unread::Fault(_)) => {
                self.refuse();
                None
            }
            Err(Unread::Memory(memory)) => {
                self.lack(memory);
                None
            }
        }
    }

    /// The text of which a word is the token, and an empty one where there is none: then the row
    /// isn't answered.
    pub fn text(&mut self, word: &str) -> Text {
        match text_of(self.alloc, word) {
            Ok(text) => text,
            Err(stop) => {
                self.stop = Some(stop);
                Text::new(self.alloc)
            }
        }
    }

    /// The text of words, in the same way.
    pub fn texts(&mut self, words: &str) -> Text {
        match texts_of(self.alloc, words) {
            Ok(text) => text,
            Err(stop) => {
                self.stop = Some(stop);
                Text::new(self.alloc)
            }
        }
    }

    /// The bytes of words, in the same way.
    pub fn bytes(&mut self, words: &str) -> List<u8> {
        match bytes_of(self.alloc, words) {
            Ok(bytes) => bytes,
            Err(stop) => {
                self.stop = Some(stop);
                List::new(self.alloc)
            }
        }
    }

    /// The path of a word, in the same way.
    pub fn path(&mut self, word: &str) -> TreePath {
        match path_of(self.alloc, word) {
            Ok(path) => path,
            Err(stop) => {
                self.stop = Some(stop);
                TreePath::new(self.alloc)
            }
        }
    }

    /// The number that a word is, and 0 where it is none: then the row isn't answered.
    pub fn number<N: FromStr + From<u8>>(&mut self, word: &str) -> N
    where
        N::Err: Drop,
    {
        match number_of(word) {
            Ok(number) => number,
            Err(stop) => {
                self.stop = Some(stop);
                N::from(0)
            }
        }
    }

    /// Whether the row isn't answered.
    pub fn is_stopped(&self) -> bool {
        self.stop.is_some()
    }

    /// What is told, or nothing where nothing is to be told.
    pub fn end(self) -> Result<Option<Text>, AllocError> {
        match self.stop {
            Some(Unread::Fault(_)) => Ok(Some(Text::from_str(self.alloc, "no row")?)),
            Some(Unread::Memory(_)) => Ok(Some(Text::from_str(self.alloc, "no memory")?)),
            None if self.is_silent => Ok(None),
            None => Ok(Some(self.told)),
        }
    }
}
