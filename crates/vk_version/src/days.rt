//! Days of the calendar, as they stand in a version's text.
ghost use Rattle.std.specs.Prelude.{◌≡◌, ◌&&◌, ◌<◌, ◌≤◌, ◌∷◌, ◌^◌, [], length, if◌then◌else◌, Some};
ghost use Rattle.std.specs.Prelude.{None, true};
ghost use Rattle.std.specs.List.{list_all};
ghost use Rattle.std.specs.Char.{is_ascii_digit};
ghost use Rattle.vk_version.specs.Texts.{are_digits, is_day, number_of, has_day, numbers_of_day};

use crate::numbers;
use jiff::civil::Date;
use std::str;

// Whether a text is so many digits.
fn are_digits(text: &[u8], count: usize) -> bool
    ensures { result ≡ are_digits count text.now }
{
    text.len() == count && numbers::are_digits(text)
}

// Whether a text is of the form `YYYY-MM-DD`.
pub(crate) fn is_day(text: &[u8]) -> bool
    ensures { result ≡ is_day text.now }
{
    text.len() == 10
        && text[4] == b'-'
        && text[7] == b'-'
        && are_digits(&text[..4], 4)
        && are_digits(&text[5..7], 2)
        && are_digits(&text[8..], 2)
}

// The number that a few digits say.
fn small_number(digits: &[u8]) -> u64
    requires some { 0 < length digits.now }
    requires few { length digits.now ≤ 4 }
    requires digits { list_all is_ascii_digit digits.now ≡ true }
    ensures value { result ≡ number_of digits.now }
    ensures small { result < 10 ^ length digits.now }
{
    str::from_utf8(digits).unwrap().parse().unwrap()
}

// Whether the calendar has this year, month and day.
fn has_day(year: u64, month: u64, day: u64) -> bool
    requires year { year < 10000 }
    requires month { month < 100 }
    requires day { day < 100 }
    ensures { result ≡ has_day (year ∷ month ∷ day ∷ []) }
{
    match Date::new(year as i16, month as i8, day as i8) {
        Ok(_) => true,
        Err(_) => false,
    }
}

// The year, the month and the day of a text of the form `YYYY-MM-DD`; `None` exactly where the
// calendar hasn't that day.
pub(crate) fn day_numbers(day: &[u8]) -> Option<[u64; 3]>
    requires { is_day day.now ≡ true }
    ensures { result ≡ (if has_day (numbers_of_day day.now) then Some
        (numbers_of_day day.now) else None) }
{
    let year = small_number(&day[..4]);
    let month = small_number(&day[5..7]);
    let day = small_number(&day[8..]);
    if has_day(year, month, day) {
        Some([year, month, day])
    } else {
        None
    }
}
