//! Places in a document are JSON Pointers (RFC 6901).
ghost use Rattle.std.specs.Prelude.{◌≡◌, ◌++◌, IfOk, Some, OnOk, codes, string_bytes};
ghost use Rattle.vk_json.specs.Places.{escaped_char, escaped, member_step, item_step};
ghost use Rattle.vk_json.specs.Places.{here, moved, at_member, place_text};
ghost use Rattle.vk_base.specs.Stops.{fault_in};
ghost use Rattle.vk_json.specs.FaultViews.{Tells, IsMoved};

use crate::faults::{FileFault, Why};
use std::alloc::Global;
use vk_base::{Memory, Text, Unread, token};

// Puts a character of a key: `~` is `~0` and `/` is `~1`.
fn push_escaped_char(place: &mut String, c: char) -> Result<(), Memory>
    ensures { OnOk result (string_bytes place.new ≡ string_bytes place.old ++ escaped_char c) }
{
    match c {
        '~' => place.push_str("~0")?,
        '/' => place.push_str("~1")?,
        _ => place.push(c)?,
    }
    Ok(())
}

fn push_escaped(place: &mut String, key: &str) -> Result<(), Memory>
    ensures { OnOk result (string_bytes place.new ≡ string_bytes place.old ++ escaped key.now) }
{
    for c in key.chars() {
        push_escaped_char(place, c)?;
    }
    Ok(())
}

/// The place of a member of the value at a place.
pub fn under(alloc: Global, place: &Text, key: &str) -> Result<Text, Memory>
    ensures { IfOk result (λ p. p ≡ place.now ++ member_step key.now) }
{
    let mut under = String::from_str(alloc, place.as_str())?;
    under.push_str("/")?;
    push_escaped(&mut under, key)?;
    Ok(Text::from_string(under))
}

/// The place of an item of the list at a place, counted from 0.
pub fn at(alloc: Global, place: &Text, n: usize) -> Result<Text, Memory>
    ensures { IfOk result (λ p. p ≡ place.now ++ item_step n) }
{
    let place = place.as_str();
    Ok(Text::from_string(format!(in alloc; "{place}/{n}")?))
}

/// A place as it is printed: its token, and `-` for the whole document.
pub fn place_text(alloc: Global, place: &Text) -> Result<Text, Memory>
    ensures { IfOk result (λ t. t ≡ place_text place.now) }
{
    if place.is_empty() {
        return Ok(Text::from_str(alloc, "-")?);
    }
    token(alloc, place.as_bytes())
}

/// The fault that the value itself is wrong.
pub fn wrong(alloc: Global, why: Why) -> Unread<FileFault>
    ensures { fault_in result ≡ Some (here why) }
{
    Unread::Fault(FileFault {
        place: Text::new(alloc),
        why,
    })
}

// A part's fault, told from outside: the step to the part goes before its place.
fn moved_fault(mut step: Text, fault: &FileFault) -> Result<FileFault, Memory>
    ensures { IfOk result (λ f. f ≡ moved step fault.now) }
{
    step.push_str(fault.place.as_str())?;
    Ok(FileFault {
        place: step,
        why: fault.why,
    })
}

fn moved(step: Text, unread: Unread<FileFault>) -> Unread<FileFault>
    ensures { IsMoved step unread result }
{
    match unread {
        Unread::Fault(fault) => match moved_fault(step, &fault) {
            Ok(fault) => Unread::Fault(fault),
            Err(memory) => Unread::Memory(memory),
        },
        Unread::Memory(memory) => Unread::Memory(memory),
    }
}

/// What a member's reading answered in place of a value, told from the object.
pub fn in_member(alloc: Global, key: &str, unread: Unread<FileFault>) -> Unread<FileFault>
    ensures { IsMoved (member_step key.now) unread result }
{
    match under(alloc, &Text::new(alloc), key) {
        Ok(step) => moved(step, unread),
        Err(memory) => Unread::Memory(memory),
    }
}

/// What an item's reading answered in place of a value, told from the list.
pub fn in_item(alloc: Global, n: usize, unread: Unread<FileFault>) -> Unread<FileFault>
    ensures { IsMoved (item_step n) unread result }
{
    match at(alloc, &Text::new(alloc), n) {
        Ok(step) => moved(step, unread),
        Err(memory) => Unread::Memory(memory),
    }
}

/// The fault that the member with this key is wrong.
pub fn wrong_member(alloc: Global, key: &str, why: Why) -> Unread<FileFault>
    ensures { Tells (fault_in result) (Some (at_member key.now why)) }
{
    in_member(alloc, key, wrong(alloc, why))
}
