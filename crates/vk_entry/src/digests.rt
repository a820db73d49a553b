//! Digests in printed lines.
ghost use Rattle.std.specs.Prelude.{◌≡◌, List, ℕ, Some, length};
ghost use Rattle.hex.specs.Hex.{IsBytes, encode_lower};
ghost use Rattle.vk_entry.specs.ContentLists.{IsDigest};

use std::alloc::Global;
use std::fmt;
use vk_base::{Memory, TokenOf};
use vk_digest::Digest;
use vk_forms::Form;

/// A digest that is printed as its text, which takes no memory.
#[derive(Clone, Copy)]
pub struct DigestText<'a>(pub &'a Digest);

impl fmt::Display for DigestText<'_> {
    ghost output = { λ d. Some (encode_lower d.0.now.bytes) };

    fn fmt<W: fmt::Write>(&self, f: &mut fmt::Formatter<W>) -> fmt::Result {
        known(self.0);
        let digits = self.0.hex();
        TokenOf(digits.as_slice()).fmt(f)
    }
}

/// A digest, read from its text.
#[derive(Drop)]
pub struct AnyDigest;

impl Form for AnyDigest {
    type Out = Digest;

    ghost Plain = { List ℕ };

    ghost plain = { λ d. d.bytes };

    ghost prints = { λ f. encode_lower };

    ghost is_right = { λ f. IsDigest };

    fn read(&self, _alloc: Global, text: &str) -> Result<Option<Digest>, Memory> {
        let Some(digest) = Digest::read(text) else {
            return Ok(None);
        };
        known(&digest);
        Ok(Some(digest))
    }
}

/// Tells a caller what every digest keeps: it is 32 bytes.
pub(crate) fn known(digest: &Digest)
    ensures bytes { IsBytes digest.now.bytes }
    ensures long { length digest.now.bytes ≡ 32 }
{
    are_bytes(digest.bytes.as_slice());
}

fn are_bytes(bytes: &[u8])
    ensures { IsBytes bytes.now }
{
    let _ = bytes;
}
