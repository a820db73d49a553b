//! Numbers without leading zeros, and such numbers joined by dots.
ghost use Rattle.std.specs.Prelude.{◌≡◌, ◌==◌, ◌∷◌, ◌++◌, ◌<◌, ◌^◌, [], length, map, nat_lt};
ghost use Rattle.std.specs.Prelude.{Ok, OnOk, IfSome, true, false};
ghost use Rattle.std.specs.List.{list_all};
ghost use Rattle.std.specs.Char.{is_ascii_digit};
ghost use Rattle.std.specs.Str.{IsUtf8};
ghost use Rattle.semver.specs.Order.{parts};
ghost use Rattle.vk_spec.specs.Reading.{Gives};
ghost use Rattle.vk_version.specs.Steps.{fits_if, parts_in};
ghost use Rattle.vk_base.specs.Stops.{fault_in};
ghost use Rattle.vk_version.specs.Texts.{is_number, is_dotted, number_of, numbers_in, all_fit};
ghost use Rattle.vk_version.specs.Texts.{first_part};

use crate::cuts::split;
use crate::faults::VersionFault;
use crate::number_lists::Numbers;
use vk_base::{Unread, read_u64};

// Whether these are digits alone.
pub(crate) fn are_digits(text: &[u8]) -> bool
    ensures { result ≡ list_all is_ascii_digit text.now }
{
    text.iter().all(u8::is_ascii_digit)
}

// Whether a text is a number without leading zeros.
pub(crate) fn is_number(text: &[u8]) -> bool
    ensures { result ≡ is_number text.now }
{
    match text {
        [] => false,
        [b'0', _, ..] => false,
        digits => are_digits(digits),
    }
}

// Whether a text is numbers without leading zeros, joined by dots.
pub(crate) fn is_dotted(text: &[u8]) -> bool
    ensures { result ≡ is_dotted text.now }
{
    text.split(|byte| *byte == b'.').all(is_number)
}

// The part of a text before its first dot, and what stands after that dot, if there is one.
pub(crate) fn cut(text: &str) -> (&str, Option<&str>)
    ensures front { result.0.now ≡ first_part text.now }
    ensures whole { parts text.now ≡ result.0.now ∷ parts_in result.1 }
    ensures shorter { IfSome result.1 (λ rest. length rest.now < length text.now) }
    ensures utf8 { IfSome result.1 (λ rest. IsUtf8 rest.now) }
{
    split(text, '.')
}

// Puts the number that digits say at the end of a list.
pub(crate) fn push_number(numbers: &mut Numbers, digits: &str) -> Result<(), Unread<VersionFault>>
    requires { is_number digits.now ≡ true }
    ensures fits { Gives (λ _. tt) fault_in result
        (fits_if (nat_lt (number_of digits.now) (2 ^ 64))) }
    ensures ok { OnOk result (numbers.new ≡ numbers.old ++ number_of digits.now ∷ []) }
{
    match read_u64(digits) {
        Some(number) => Ok(numbers.push(number)?),
        None => Err(Unread::Fault(VersionFault::Number)),
    }
}

// Puts the numbers of a dotted text at the end of a list.
pub(crate) fn push_numbers(numbers: &mut Numbers, text: &str) -> Result<(), Unread<VersionFault>>
    requires { is_dotted text.now ≡ true }
    ensures fits { Gives (λ _. tt) fault_in result (fits_if (all_fit (numbers_in text.now))) }
    ensures ok { OnOk result (numbers.new ≡ numbers.old ++ numbers_in text.now) }
{
    let mut left = text;
    'parts: loop {
        let (part, rest) = cut(left);
        push_number(numbers, part)?;
        match rest {
            Some(more) => left = more,
            None => return Ok(()),
        }
    }
}

// Whether what stands after a first dot, if there is one, is numbers joined by dots.
pub(crate) fn are_numbers(later: Option<&str>) -> bool
    ensures { result ≡ list_all is_number (parts_in later.entry) }
{
    match later {
        Some(text) => is_dotted(text.as_bytes()),
        None => true,
    }
}

// Puts the numbers after a first dot, if there is one, at the end of a list.
pub(crate) fn push_later(
    numbers: &mut Numbers,
    later: Option<&str>,
) -> Result<(), Unread<VersionFault>>
    requires { list_all is_number (parts_in later) ≡ true }
    ensures fits { Gives (λ _. tt) fault_in result
        (fits_if (all_fit (map number_of (parts_in later.entry)))) }
    ensures ok { OnOk result (numbers.new ≡ numbers.old ++ map number_of (parts_in later.entry)) }
{
    match later {
        Some(text) => push_numbers(numbers, text),
        None => Ok(()),
    }
}
