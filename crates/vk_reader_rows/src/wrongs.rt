//! Faults on a line: the word, and the place behind it; of files, the place and then the word.

use crate::shows::Show;
use vk_base::{NameFault, PathFault};
use vk_expr::ExprFault;
use vk_json::FileFault;
use vk_row_text::Reply;
use vk_triplet::TripletFault;
use vk_version::VersionFault;

fn push_at(reply: &mut Reply, word: &str, at: u32) {
    reply.push(word);
    reply.push_number(u64::from(at));
}

impl Show for NameFault {
    fn show(&self, reply: &mut Reply) {
        match self {
            NameFault::Bad { at } => push_at(reply, "bad ", *at),
            NameFault::Reserved => reply.push("reserved"),
        }
    }
}

impl Show for PathFault {
    fn show(&self, reply: &mut Reply) {
        match self {
            PathFault::Empty => reply.push("empty"),
            PathFault::TooLong => reply.push("too long"),
            PathFault::Zero { at } => push_at(reply, "zero at ", *at),
        }
    }
}

impl Show for VersionFault {
    fn show(&self, reply: &mut Reply) {
        reply.push(match self {
            VersionFault::Shape => "version",
            VersionFault::Number => "range",
            VersionFault::Day => "day",
        });
    }
}

impl Show for ExprFault {
    fn show(&self, reply: &mut Reply) {
        match self {
            ExprFault::Unexpected { at } => push_at(reply, "unexpected:", *at),
            ExprFault::Mixed { at } => push_at(reply, "mixed:", *at),
            ExprFault::Open { at } => push_at(reply, "open:", *at),
            ExprFault::Deep => reply.push("depth"),
        }
    }
}

impl Show for TripletFault {
    fn show(&self, reply: &mut Reply) {
        match self {
            TripletFault::Line { n } => push_at(reply, "line:", *n),
            TripletFault::NotText => reply.push("utf8"),
        }
    }
}

impl Show for FileFault {
    fn show(&self, reply: &mut Reply) {
        reply.push_fault(&self.place, self.why);
    }
}
