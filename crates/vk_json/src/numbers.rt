//! Numbers of a document: which are in range, and which are small and whole.
ghost use Rattle.std.specs.Prelude.{◌≡◌, ◌==◌, ◌<◌, IsTrue, true, false};
ghost use Rattle.std.specs.Prelude.{length, option_and_then, slice_index};
ghost use Rattle.std.specs.Option.{is_some};
ghost use Rattle.json.specs.Value.{value_view, items_view, members_view};
ghost use Rattle.serde_json.specs.Data.{no_members};
ghost use Rattle.serde_json.specs.Find.{as_u64};
ghost use Rattle.serde_json.specs.Read.{float_of, number_from, number_of};
ghost use Rattle.serde_json.specs.Read.{of_json, of_items, of_members};

use fast_float::Numeral;
use json::Value;

fn is_finite(negative: bool, numeral: &Numeral<'_>) -> bool
    ensures { result ≡ is_some (float_of negative numeral.now) }
{
    numeral.to_float::<f64>(negative).is_finite()
}

fn is_unsigned_in_range(numeral: &Numeral<'_>) -> bool
    ensures { result ≡ is_some (number_from false numeral.now) }
{
    numeral.to_u64().is_some() || is_finite(false, numeral)
}

fn is_negative_in_range(numeral: &Numeral<'_>) -> bool
    ensures { result ≡ is_some (number_from true numeral.now) }
{
    numeral.to_i64(true).is_some_and(|n| n < 0) || is_finite(true, numeral)
}

fn unsigned(numeral: &Numeral<'_>) -> Option<u64>
    ensures { result ≡ option_and_then as_u64 (number_from false numeral.now) }
{
    numeral.to_u64()
}

fn has_minus(bytes: &[u8]) -> bool
    ensures value { result ≡ (slice_index bytes.now 0 == 45) }
    ensures some { IsTrue result → 0 < length bytes.now }
{
    !bytes.is_empty() && bytes[0] == b'-'
}

// Whether a number is whole and has 64 bits, or has a float near it.
fn is_in_range(text: &str) -> bool
    ensures { result ≡ is_some (number_of text.now) }
{
    let bytes = text.as_bytes();
    if has_minus(bytes) {
        return is_negative_in_range(&Numeral::scan(&bytes[1..]));
    }
    is_unsigned_in_range(&Numeral::scan(bytes))
}

/// A whole number of 64 bits; `None` exactly where a number has a sign, a fraction or an exponent,
/// or is too large.
pub fn whole(text: &str) -> Option<u64>
    ensures { result ≡ option_and_then as_u64 (number_of text.now) }
{
    let bytes = text.as_bytes();
    if has_minus(bytes) {
        return None;
    }
    unsigned(&Numeral::scan(bytes))
}

/// Whether each number in a value is in range.
#[cycle(range)]
pub fn are_in_range(value: &Value) -> bool
    ensures { result ≡ is_some (of_json (value_view value.now)) }
{
    match value {
        Value::Null | Value::Bool(_) | Value::String(_) => true,
        Value::Number(text) => is_in_range(text),
        Value::Array(items) => are_items_in_range(items.as_slice()),
        Value::Object(members) => are_members_in_range(members.as_slice()),
    }
}

#[cycle(range)]
fn are_items_in_range(items: &[Value]) -> bool
    ensures { result ≡ is_some (of_items (items_view items.now)) }
{
    for item in items {
        if !are_in_range(item) {
            return false;
        }
    }
    true
}

#[cycle(range)]
fn are_members_in_range(members: &[(&str, Value)]) -> bool
    ensures { result ≡ is_some (of_members (members_view members.now) no_members) }
{
    for (_, value) in members {
        if !are_in_range(value) {
            return false;
        }
    }
    true
}
