//! Texts of a few bytes, which lie in their values.
ghost use Rattle.std.specs.Prelude.{◌≡◌, ◌==◌, ◌<◌, ◌↔◌, length, IfSome, IsNone};
ghost use Rattle.std.specs.Cmp.Lexicographic.{pointwise};
ghost use Rattle.vk_base.specs.ShortTexts.{padded};

use std::alloc::{AllocError, Global};
use std::marker::Model;

// So a text with its length takes 15 bytes, and a choice between it and an address takes 16.
const ROOM: usize = 14;

// A text of at most 14 bytes with zeros behind it, so that two are compared by their lengths and
// all of their room. Contracts see it as its bytes.
#[derive(Drop)]
pub(crate) struct ShortText {
    len: u8,
    room: [u8; ROOM],
}

impl Model for ShortText {
    ghost use Rattle.std.specs.Prelude.{List, ℕ, take};
    ghost use Rattle.vk_base.specs.ShortTexts.{IsShort};

    ghost Value = { List ℕ };

    ghost view = { λ t. take t.len t.room };

    ghost invariant = { λ t. IsShort t.len t.room };
}

impl ShortText {
    // A copy of a text, `None` where it is longer than the room.
    pub(crate) fn of(text: &str) -> Option<ShortText>
        ensures some { IfSome result (λ t. t ≡ text.now) }
        ensures none { IsNone result ↔ (14 < length text.now) }
    {
        let bytes = text.as_bytes();
        if bytes.len() > ROOM {
            return None;
        }
        let mut room = [0; ROOM];
        room[..bytes.len()].copy_from_slice(bytes);
        Some(ShortText {
            len: bytes.len() as u8,
            room,
        })
    }

    // The text, borrowed.
    pub(crate) fn as_str(&self) -> &str
        ensures { result.now ≡ self.now }
    {
        // SAFETY: the invariant says that these bytes are UTF-8.
        unsafe { str::from_utf8_unchecked(&self.room[..self.len as usize]) }
    }

    // Whether both are the same text.
    pub(crate) fn is(&self, other: &ShortText) -> bool
        ensures { result ≡ pointwise ◌==◌ self.now other.now }
    {
        self.len == other.len && self.room == other.room
    }

    // The text, filled up with zeros.
    pub(crate) fn padded(&self) -> &[u8]
        ensures { result.now ≡ padded self.now }
    {
        &self.room
    }
}

impl Clone for ShortText {
    ghost use Rattle.std.specs.Prelude.{◌≡◌};

    ghost is_clone = { λ x y. y ≡ x };

    fn clone(&self) -> Result<ShortText, AllocError> {
        Ok(ShortText {
            len: self.len,
            room: self.room,
        })
    }
}
