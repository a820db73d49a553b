ghost use Rattle.std.specs.Prelude.{◌≡◌, ◌<◌, ◌↔◌, List, ℕ, Some, IfOk, IsTrue};
ghost use Rattle.std.specs.List.{All};
ghost use Rattle.percent_encoding.specs.Iter.{encoded_text};
ghost use Rattle.vk_base.specs.Tokens.{token_of, ReadsToken, IsByte, IsPlain};

use crate::lists::List;
use crate::memory::Memory;
use crate::texts::Text;
use percent_encoding::{
    AsciiSet, CONTROLS, PercentEncode, ascii_set, percent_decode, percent_encode,
};
use std::alloc::Global;
use std::fmt;

// The bytes that are escaped, besides those beyond ASCII.
const ESCAPED: AsciiSet = ascii_set!(CONTROLS.add(b' ').add(b'%'));

// The pieces of the token of these bytes.
fn escaped(bytes: &[u8]) -> PercentEncode<'_>
    ensures { encoded_text result ≡ token_of bytes.now }
{
    percent_encode(bytes, ESCAPED)
}

/// The token of these bytes, as all names, paths, places and versions are printed: each byte 0 to
/// 32, 127, `%` and each from 128 on is `%` and two upper-case hexadecimal digits (RFC 3986, 2.1).
pub fn token(alloc: Global, bytes: &[u8]) -> Result<Text, Memory>
    ensures { IfOk result (λ t. t ≡ token_of bytes.now) }
{
    let mut text = String::new(alloc);
    escaped(bytes).append_to(&mut text)?;
    Ok(Text::from_string(text))
}

/// Bytes that are printed as their token, which takes no memory.
#[derive(Clone, Copy)]
pub struct TokenOf<'a>(pub &'a [u8]);

impl fmt::Display for TokenOf<'_> {
    ghost output = { λ t. Some (token_of t.0.now) };

    fn fmt<W: fmt::Write>(&self, f: &mut fmt::Formatter<W>) -> fmt::Result {
        escaped(self.0).fmt(f)
    }
}

/// The bytes of which this is the token; `None` exactly where it is the token of no bytes.
pub fn read_token(alloc: Global, text: &str) -> Result<Option<List<u8>>, Memory>
    ensures { IfOk result (ReadsToken text.now) }
{
    let mut bytes = Vec::new(alloc);
    percent_decode(text.as_bytes()).append_to(&mut bytes)?;
    let again = token(alloc, bytes.as_slice())?;
    if again.is(text) {
        return Ok(Some(List::from_vec(bytes)));
    }
    Ok(None)
}

/// Different bytes have different tokens, and a token holds neither blanks, nor line feeds, nor
/// other control characters, nor bytes beyond ASCII.
pub fn token_rule()
    ensures differ { (one other : List ℕ) → All IsByte one → All IsByte other
        → token_of one ≡ token_of other → one ≡ other }
    ensures plain { (bytes : List ℕ) → All IsByte bytes → All IsPlain (token_of bytes) }
{}
