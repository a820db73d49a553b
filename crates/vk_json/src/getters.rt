//! Getters over a value. None takes memory but `keys`.
ghost use Rattle.std.specs.Prelude.{◌≡◌, ◌<◌, ◌^◌, ◌++◌, ◌∷◌, [], map};
ghost use Rattle.std.specs.Prelude.{option_map, option_and_then, IfOk, IfSome, IsTrue, OnOk};
ghost use Rattle.std.specs.Option.{is_some};
ghost use Rattle.vk_json.specs.KeyOrders.{Ascend, KeysAscend};
ghost use Rattle.serde_json.specs.Find.{get, as_str, as_bool, as_null, as_object};
ghost use Rattle.vk_json.specs.Values.{view, entries_view, members_data};
ghost use Rattle.serde_json.specs.Data.{no_members};
ghost use Rattle.json.specs.Value.{members_view};
ghost use Rattle.vk_json.specs.Looks.{items_of, keys_of, number_of, if_small, names_of};

use crate::numbers::whole;
use json::Value;
use std::alloc::Global;
use std::collections::BTreeMap;
use vk_base::{List, Memory, Text};

/// The members of an object by their keys. Of one key the last member counts.
pub(crate) type Members<'b, 'a> = BTreeMap<&'b str, &'b Value<'a>>;

/// The member with this key; `None` exactly where the value is no object or lacks the key.
pub fn member<'b, 'a>(value: &'b Value<'a>, key: &str) -> Option<&'b Value<'a>>
    ensures { option_map (λ w. view w.now) result ≡ get key.now (view value.now) }
{
    value.get(key)
}

/// The items; `None` exactly where the value is no list.
pub fn items<'b, 'a>(value: &'b Value<'a>) -> Option<&'b [Value<'a>]>
    ensures { option_map (λ ws. map view ws.now) result ≡ items_of (view value.now) }
{
    match value {
        Value::Array(list) => Some(list.as_slice()),
        _ => None,
    }
}

/// The text; `None` exactly where the value is no text.
pub fn as_text<'a>(value: &Value<'a>) -> Option<&'a str>
    ensures { option_map (λ t. t.now) result ≡ as_str (view value.now) }
{
    value.as_str()
}

/// The number; `None` exactly where the value is no whole number from 0 to 2^32 - 1 without
/// fraction, exponent or sign.
pub fn as_number(value: &Value) -> Option<u32>
    ensures { result ≡ number_of (view value.now) }
{
    small(whole(value.as_number()?)?)
}

fn small(number: u64) -> Option<u32>
    ensures { result ≡ if_small number }
{
    if number < 1 << 32 {
        return Some(number as u32);
    }
    None
}

/// The truth value; `None` exactly where the value is no `true` or `false`.
pub fn as_bool(value: &Value) -> Option<bool>
    ensures { result ≡ as_bool (view value.now) }
{
    value.as_bool()
}

/// Whether the value is `null`.
pub fn is_null(value: &Value) -> bool
    ensures { result ≡ is_some (as_null (view value.now)) }
{
    value.is_null()
}

/// The members of an object as they stand in the document; `None` exactly where the value is no
/// object.
pub(crate) fn written<'b, 'a>(value: &'b Value<'a>) -> Option<&'b [(&'a str, Value<'a>)]>
    ensures { option_map (λ object. members_data (members_view object.now) no_members) result
        ≡ as_object (view value.now) }
{
    match value {
        Value::Object(object) => Some(object.as_slice()),
        _ => None,
    }
}

// Whether each key is below the next one, so that the members stand in order already. `false`
// costs time alone.
pub(crate) fn ascends(object: &[(&str, Value)]) -> bool
    ensures { IsTrue result → Ascend (map (λ m. m.0.now) object.now) }
{
    object.is_sorted_by(|one, next| one.0 < next.0)
}

// The members by their keys.
pub(crate) fn by_key<'b, 'a>(
    alloc: Global,
    object: &'b [(&'a str, Value<'a>)],
) -> Result<Members<'b, 'a>, Memory>
    ensures { IfOk result (λ found. entries_view found.entries
        ≡ members_data (members_view object.now) no_members) }
{
    let mut found = BTreeMap::new(alloc);
    for (key, value) in object {
        found.insert(*key, value)?;
    }
    Ok(found)
}

/// The keys in byte order; `None` exactly where the value is no object.
pub fn keys(alloc: Global, value: &Value) -> Result<Option<List<Text>>, Memory>
    ensures keys { IfOk result (λ found. found ≡ keys_of (view value.now)) }
    ensures order { IfOk result (λ found. KeysAscend (view value.now)) }
{
    match written(value) {
        Some(object) => Ok(Some(names_of(alloc, &by_key(alloc, object)?)?)),
        None => Ok(None),
    }
}

// Puts a key behind those before it.
fn push_name(alloc: Global, names: &mut List<Text>, key: &str) -> Result<(), Memory>
    ensures { OnOk result (names.new ≡ names.old ++ key.now ∷ []) }
{
    Ok(names.push(Text::from_str(alloc, key)?)?)
}

fn names_of(alloc: Global, members: &Members<'_, '_>) -> Result<List<Text>, Memory>
    ensures { IfOk result (λ names. names ≡ names_of (entries_view members.now.entries)) }
{
    let mut names = List::new(alloc);
    for (key, _) in members.iter() {
        push_name(alloc, &mut names, key)?;
    }
    Ok(names)
}
