//! Words that stand for themselves.
ghost use Rattle.std.specs.Prelude.{◌≡◌, ◌↔◌, IsTrue};
ghost use Rattle.std.specs.Fmt.{decimal};
ghost use Rattle.vk_spec.specs.Pages as plain;
ghost use Rattle.vk_base.specs.Printed.{field_word};
ghost use Rattle.vk_json.specs.Words.{HasSmallNumber, word_of};
ghost use Rattle.vk_model.specs.WrongViews.{field_view};

use crate::forms::Form;
use std::alloc::Global;
use vk_base::{Memory, read_u32};
use vk_json::Why;
use vk_model::Field;

/// A word.
#[derive(Drop)]
pub struct Word(pub &'static str);

impl Form for Word {
    type Out = ();

    ghost Plain = { Unit {0} };

    ghost plain = { λ u. u };

    ghost prints = { λ f u. f.0.now };

    ghost is_right = { λ f u. Unit {0} };

    fn read(&self, _alloc: Global, text: &str) -> Result<Option<()>, Memory> {
        if text == self.0 {
            return Ok(Some(()));
        }
        Ok(None)
    }
}

// Whether these are the digits of a number.
fn is_number(text: &str, number: u32) -> bool
    ensures { IsTrue result ↔ (text.now ≡ decimal number) }
{
    match read_u32(text) {
        Some(n) => n == number,
        None => false,
    }
}

/// A number that is known.
#[derive(Drop)]
pub struct Known(pub u32);

impl Form for Known {
    type Out = ();

    ghost Plain = { Unit {0} };

    ghost plain = { λ u. u };

    ghost prints = { λ f u. decimal f.0 };

    ghost is_right = { λ f u. Unit {0} };

    fn read(&self, _alloc: Global, text: &str) -> Result<Option<()>, Memory> {
        if is_number(text, self.0) {
            return Ok(Some(()));
        }
        Ok(None)
    }
}

/// The word for what is wrong with a file.
#[derive(Drop)]
pub struct WhyWord;

impl Form for WhyWord {
    type Out = Why;

    ghost use Rattle.vk_json.specs.declared.faults.Why.{Why};

    ghost Plain = { Why };

    ghost plain = { λ why. why };

    ghost prints = { λ f. word_of };

    ghost is_right = { λ f. HasSmallNumber };

    fn read(&self, _alloc: Global, text: &str) -> Result<Option<Why>, Memory> {
        Ok(Why::read(text))
    }
}

/// The word of a field.
#[derive(Drop)]
pub struct FieldWord;

impl Form for FieldWord {
    type Out = Field;

    ghost Plain = { plain.Field };

    ghost plain = { field_view };

    ghost prints = { λ f. field_word };

    ghost is_right = { λ f field. Unit {0} };

    fn read(&self, _alloc: Global, text: &str) -> Result<Option<Field>, Memory> {
        let field = match text {
            "name" => Field::Name,
            "class" => Field::Class,
            "text" => Field::Text,
            "port-version" => Field::Port,
            _ => return Ok(None),
        };
        Ok(Some(field))
    }
}
