//! Triplet files: the variables that they set, and the marks of their triplets.

use crate::shows::{Show, show_each, tell, tell_value};
use vk_base::{List, TripletName, Unread};
use vk_row_text::Reply;
use vk_triplet::{Triplet, TripletFault, Variable, read};

/// What is asked of triplet files.
#[derive(Clone, Copy)]
pub enum Question {
    Read,
    Marks,
    NativeMarks,
    Keeps,
}

// As many bytes as a row's file may have.
const MOST_BYTES: usize = 1_000_000;

const NAME: &str = "x64-linux";

impl Show for Variable {
    fn show(&self, reply: &mut Reply) {
        reply.push_token(self.name.as_bytes());
        reply.push("=");
        reply.push_token(self.value.as_bytes());
    }
}

impl Show for Triplet {
    fn show(&self, reply: &mut Reply) {
        show_each(self.variables(), reply);
    }
}

type Reading = Result<Triplet, Unread<TripletFault>>;

fn read_bytes(bytes: &List<u8>, reply: &mut Reply) -> Option<Reading> {
    let name = TripletName::read(reply.alloc(), NAME);
    let name = reply.needed(name)?;
    if bytes.len() > MOST_BYTES {
        reply.refuse();
        return None;
    }
    Some(read(reply.alloc(), &name, bytes.as_slice()))
}

fn variables(bytes: &List<u8>, reply: &mut Reply) {
    if let Some(reading) = read_bytes(bytes, reply) {
        tell(reading, reply);
    }
}

fn triplet_of(bytes: &List<u8>, reply: &mut Reply) -> Option<Triplet> {
    let reading = read_bytes(bytes, reply)?;
    reply.needed(reading)
}

fn marks(bytes: &List<u8>, native: bool, reply: &mut Reply) {
    if let Some(triplet) = triplet_of(bytes, reply) {
        tell_value(&triplet.marks(native).names, reply);
    }
}

fn keeps(bytes: &List<u8>, reply: &mut Reply) {
    if let Some(triplet) = triplet_of(bytes, reply) {
        reply.push(triplet.name().as_str());
        reply.push(if triplet.bytes() == bytes.as_slice() {
            " and"
        } else {
            " without"
        });
        reply.push(" its bytes");
    }
}

/// - `read FILE`: the variables that the file of `x64-linux` sets, or the fault;
/// - `marks FILE`, `native-marks FILE`: the marks of its triplet, of the host's own in the latter;
/// - `keeps FILE`: the name that the triplet keeps, and whether it keeps the bytes.
pub fn answer(question: Question, rest: &str, reply: &mut Reply) {
    let bytes = reply.bytes(rest);
    match question {
        Question::Read => variables(&bytes, reply),
        Question::Marks => marks(&bytes, false, reply),
        Question::NativeMarks => marks(&bytes, true, reply),
        Question::Keeps => keeps(&bytes, reply),
    }
}
