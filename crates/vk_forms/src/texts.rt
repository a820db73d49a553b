//! Texts, as tokens.
ghost use Rattle.std.specs.Prelude.{◌≡◌, List, ℕ, IfOk, MatchOption};
ghost use Rattle.std.specs.List.{All};
ghost use Rattle.std.specs.Str.{IsUtf8};
ghost use Rattle.vk_base.specs.Tokens.{IsByte, token_of};
ghost use Rattle.vk_forms.specs.Texts.{IsText};

use crate::forms::Form;
use std::alloc::Global;
use vk_base::{Memory, Text, read_token};

// The text that bytes are; `None` exactly where they are no UTF-8.
fn text_of(alloc: Global, bytes: &[u8]) -> Result<Option<Text>, Memory>
    ensures bytes { All IsByte bytes.now }
    ensures text { IfOk result (λ found. MatchOption found (IsUtf8 bytes.now → ⊥)
        (λ t. (t ≡ bytes.now) × IsUtf8 bytes.now)) }
{
    match str::from_utf8(bytes) {
        Ok(text) => Ok(Some(Text::from_str(alloc, text)?)),
        Err(_) => Ok(None),
    }
}

/// Any text, printed as its token.
#[derive(Drop)]
pub struct TokenText;

impl Form for TokenText {
    type Out = Text;

    ghost Plain = { List ℕ };

    ghost plain = { λ t. t };

    ghost prints = { λ f. token_of };

    ghost is_right = { λ f. IsText };

    fn read(&self, alloc: Global, text: &str) -> Result<Option<Text>, Memory> {
        let Some(bytes) = read_token(alloc, text)? else {
            return Ok(None);
        };
        text_of(alloc, bytes.as_slice())
    }
}
