//! The bytes that a sink in memory took, with the room that is left.
ghost use Rattle.std.specs.Prelude.{◌≡◌, ◌-◌, ◌++◌, [], length, take, min, IfOk};

use std::alloc::{AllocError, Global};
use std::marker::Model;

/// Bytes up to a length for which memory was taken at the start, seen as the bytes and how many
/// more fit.
#[derive(Drop)]
pub struct Buffer {
    inner: Vec<u8>,
    left: usize,
}

impl Model for Buffer {
    ghost use Rattle.std.specs.Prelude.{List, ℕ, ◌+◌, ◌≤◌, vec_len, vec_capacity};

    ghost Value = { List ℕ × ℕ };

    ghost view = { λ b. (b.inner.items, b.left) };

    ghost invariant = { λ b. vec_len b.inner + b.left ≤ vec_capacity b.inner };
}

impl Buffer {
    /// An empty buffer that has room for so many bytes.
    pub fn new(alloc: Global, room: usize) -> Result<Buffer, AllocError>
        ensures { IfOk result (λ b. b ≡ ([], room)) }
    {
        Ok(Buffer {
            inner: Vec::with_capacity(alloc, room)?,
            left: room,
        })
    }

    /// What it holds.
    pub fn bytes(&self) -> &[u8]
        ensures { result.now ≡ self.now.0 }
    {
        self.inner.as_slice()
    }

    /// Takes as much of a piece as fits, and answers how much. Takes no memory.
    pub fn fill(&mut self, piece: &[u8]) -> usize
        ensures count { result ≡ min self.old.1 (length piece.now) }
        ensures bytes { self.new.0 ≡ self.old.0 ++ take result piece.now }
        ensures left { self.new.1 ≡ self.old.1 - result }
    {
        let count = self.left.min(piece.len());
        let (front, _) = piece.split_at(count);
        self.inner.extend_from_slice(front).unwrap();
        self.left -= count;
        count
    }
}
