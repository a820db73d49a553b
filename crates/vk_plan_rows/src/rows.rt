//! All rows: those about large projects, and the others.

use crate::sessions::Session;
use crate::timings;
use std::io::Eprint;
use std::rt::Clock;
use vk_row_text::{Answering, Reply, cut};

/// A project, and the clock by which large ones are timed.
#[derive(Drop)]
pub struct Rows<R> {
    pub rt: R,
    pub session: Session,
}

impl<R: Eprint + Clock + Drop> Answering for Rows<R> {
    fn answer(&mut self, row: &str, reply: &mut Reply) {
        match cut(row) {
            ("load", rest) => timings::answer(&self.rt, rest, reply),
            _ => self.session.answer(row, reply),
        }
    }
}
