//! Digests by SHA-256, told by their texts.

use vk_digest::{Digest, DigestRun};
use vk_row_text::Reply;

/// What is asked of digests.
#[derive(Clone, Copy)]
pub enum Question {
    Of,
    Pieces,
    Read,
}

fn tell(digest: Digest, reply: &mut Reply) {
    reply.push_token(digest.hex().as_slice());
}

fn of(rest: &str, reply: &mut Reply) {
    let bytes = reply.bytes(rest);
    tell(Digest::of(bytes.as_slice()), reply);
}

fn of_pieces(rest: &str, reply: &mut Reply) {
    let mut run = DigestRun::new();
    for piece in rest.split(' ') {
        let bytes = reply.bytes(piece);
        run.update(bytes.as_slice());
    }
    tell(run.finish(), reply);
}

fn read(rest: &str, reply: &mut Reply) {
    match Digest::read(rest) {
        Some(digest) => tell(digest, reply),
        None => reply.push("none"),
    }
}

/// - `digest of BYTES`: the digest of a message;
/// - `digest pieces BYTES ..`: that of a message in pieces;
/// - `digest read TEXT`: the digest with this text, or `none`.
pub fn answer(question: Question, rest: &str, reply: &mut Reply) {
    match question {
        Question::Of => of(rest, reply),
        Question::Pieces => of_pieces(rest, reply),
        Question::Read => read(rest, reply),
    }
}
