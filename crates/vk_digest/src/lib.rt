//! SHA-256 digests (FIPS 180-4), of a message at once or in pieces, and their text.
//! It promises upwards that a digest is that of the message, and that a text is read exactly where
//! it is a digest's.
#![tactic(auto)]

ghost use Rattle.std.specs.Prelude.{◌≡◌, ◌≢◌, ◌++◌, [], List, ℕ, None, IfSome, length};
ghost use Rattle.hex.specs.Hex.{IsBytes, encode_lower};
ghost use Rattle.sha2.specs.Sha256.{sha256};
ghost use Rattle.vk_digest.specs.Runs.{Holds};

use hex::{FromHex, encode_to_slice};
use sha2::{Digest as Hasher, Sha256};

/// A digest: 32 bytes, in whose order digests are.
#[derive(Clone, Copy, PartialEq, Eq, PartialOrd, Ord, Hash)]
pub struct Digest {
    /// The bytes.
    pub bytes: [u8; 32],
}

impl Digest {
    /// The digest of a message.
    pub fn of(bytes: &[u8]) -> Digest
        ensures { result.bytes ≡ sha256 bytes.now }
    {
        Digest {
            bytes: Sha256::digest(bytes),
        }
    }

    /// Its text: 64 hexadecimal digits, the letters in lower case.
    pub fn hex(&self) -> [u8; 64]
        ensures { result ≡ encode_lower self.now.bytes }
    {
        let mut text = [0u8; 64];
        let _ = encode_to_slice(self.bytes.as_slice(), text.as_mut_slice());
        text
    }

    /// The digest with this text; `None` exactly where no digest has it.
    pub fn read(text: &str) -> Option<Digest>
        ensures value { IfSome result (λ d. encode_lower d.bytes ≡ text.now) }
        ensures none { result ≡ None → (bytes : List ℕ) → IsBytes bytes → length bytes ≡ 32
            → encode_lower bytes ≢ text.now }
    {
        match <[u8; 32] as FromHex>::from_hex(text) {
            Ok(bytes) => with_text(Digest { bytes }, text),
            Err(_) => None,
        }
    }
}

// The digest, where this is its text, and its letters are in lower case.
fn with_text(digest: Digest, text: &str) -> Option<Digest>
    ensures value { IfSome result (λ d. (d ≡ digest) × (encode_lower d.bytes ≡ text.now)) }
    ensures none { result ≡ None → encode_lower digest.bytes ≢ text.now }
{
    if digest.hex().as_slice() == text.as_bytes() {
        Some(digest)
    } else {
        None
    }
}

/// The digest of a message that comes in pieces. Its calls take no memory.
#[derive(Drop)]
pub struct DigestRun {
    hasher: Sha256,
}

impl DigestRun {
    /// No piece came yet.
    pub fn new() -> DigestRun
        ensures { Holds result [] }
    {
        DigestRun {
            hasher: Sha256::new(),
        }
    }

    /// A piece more of the message.
    pub fn update(&mut self, bytes: &[u8])
        ensures { (message : List ℕ) → Holds self.old message
            → Holds self.new (message ++ bytes.now) }
    {
        self.hasher.update(bytes);
    }

    /// The digest of all pieces.
    pub fn finish(self) -> Digest
        ensures { (message : List ℕ) → Holds self message → result.bytes ≡ sha256 message }
    {
        Digest {
            bytes: self.hasher.finalize(),
        }
    }
}
