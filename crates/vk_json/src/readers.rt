//! Readers of values, put together from readers of their parts. Each answers what its reading
//! gives: the value, or the first fault with its place.
ghost use Rattle.std.specs.Prelude.{◌≡◌, ℕ, Bool, List, Result, IfOk, [], map, option_map};
ghost use Rattle.serde_json.specs.Data.{Data};
ghost use Rattle.vk_json.specs.Values.{view, entries_view, members_data, pair_of};
ghost use Rattle.serde_json.specs.Data.{no_members};
ghost use Rattle.json.specs.Value.{members_view};
ghost use Rattle.vk_spec.specs.Reading.{Gives, read_each};
ghost use Rattle.vk_json.specs.declared.faults.FileFault.{FileFault};
ghost use Rattle.vk_base.specs.Stops.{fault_in};
ghost use Rattle.vk_json.specs.Places.{inside, member_step, item_step};
ghost use Rattle.vk_json.specs.KeyOrders.{KeysAscend};
ghost use Rattle.vk_json.specs.Readings.{text_at, bool_at, number_at, object_at};
ghost use Rattle.vk_json.specs.Readings.{wanted, optional, optional_or, item_at, each_item};
ghost use Rattle.vk_json.specs.Readings.{member_at, members_by, each_member};

use crate::faults::{FileFault, Why};
use crate::getters::{
    Members, as_bool, as_number, as_text, ascends, by_key, items, member, written,
};
use crate::places::{in_item, in_member, wrong, wrong_member};
use json::Value;
use std::alloc::Global;
use vk_base::{List, Text, Unread};

/// A way to read a value.
pub trait Reader {
    /// What is read.
    type Out: Drop;

    ghost Plain: { Type 0 };

    ghost plain: { Self.Out → Plain };

    ghost reads: { Self → Data → Result Plain FileFault };

    /// What the value means, or its first fault.
    fn read(&self, alloc: Global, value: &Value) -> Result<Self::Out, Unread<FileFault>>
        ensures { Gives plain fault_in result (reads self.now (view value.now)) };
}

/// A text.
pub fn text<'a>(alloc: Global, value: &Value<'a>) -> Result<&'a str, Unread<FileFault>>
    ensures { Gives (λ t. t.now) fault_in result (text_at (view value.now)) }
{
    as_text(value).ok_or(wrong(alloc, Why::Text))
}

fn read_in_member<R: Reader>(
    alloc: Global,
    key: &str,
    value: &Value,
    reader: &R,
) -> Result<R::Out, Unread<FileFault>>
    ensures { Gives R.plain fault_in result
        (inside (member_step key.now) (R.reads reader.now (view value.now))) }
{
    match reader.read(alloc, value) {
        Ok(read) => Ok(read),
        Err(fault) => Err(in_member(alloc, key, fault)),
    }
}

/// A truth value.
pub fn boolean(alloc: Global, value: &Value) -> Result<bool, Unread<FileFault>>
    ensures { Gives (λ b. b) fault_in result (bool_at (view value.now)) }
{
    as_bool(value).ok_or(wrong(alloc, Why::Bool))
}

/// A whole number from 0 to 2^32 - 1.
pub fn number(alloc: Global, value: &Value) -> Result<u32, Unread<FileFault>>
    ensures { Gives (λ n. n) fault_in result (number_at (view value.now)) }
{
    as_number(value).ok_or(wrong(alloc, Why::Number))
}

/// A member that has to be there, read by a reader. `Missing` comes where it isn't, with the place
/// where it would be.
#[tactic(auto, unfolding(crate::specs::Readings::wanted))]
pub fn wanted<R: Reader>(
    alloc: Global,
    value: &Value,
    key: &str,
    reader: &R,
) -> Result<R::Out, Unread<FileFault>>
    ensures { Gives R.plain fault_in result (wanted (R.reads reader.now) key.now (view value.now)) }
{
    match member(value, key) {
        Some(found) => read_in_member(alloc, key, found, reader),
        None => Err(wrong_member(alloc, key, Why::Missing)),
    }
}

/// A member that may be there, read by a reader.
#[tactic(auto, unfolding(crate::specs::Readings::optional))]
pub fn optional<R: Reader>(
    alloc: Global,
    value: &Value,
    key: &str,
    reader: &R,
) -> Result<Option<R::Out>, Unread<FileFault>>
    ensures { Gives (option_map R.plain) fault_in result
        (optional (R.reads reader.now) key.now (view value.now)) }
{
    match member(value, key) {
        Some(found) => Ok(Some(read_in_member(alloc, key, found, reader)?)),
        None => Ok(None),
    }
}

/// A member that may be there, read by a reader; where it isn't, the default stands for it.
#[tactic(auto, unfolding(crate::specs::Readings::optional_or))]
pub fn optional_or<R: Reader>(
    alloc: Global,
    value: &Value,
    key: &str,
    reader: &R,
    default: R::Out,
) -> Result<R::Out, Unread<FileFault>>
    ensures { Gives R.plain fault_in result
        (optional_or (R.plain default) (R.reads reader.now) key.now (view value.now)) }
{
    match member(value, key) {
        Some(found) => read_in_member(alloc, key, found, reader),
        None => Ok(default),
    }
}

fn read_item<R: Reader>(
    alloc: Global,
    n: usize,
    value: &Value,
    reader: &R,
) -> Result<R::Out, Unread<FileFault>>
    ensures { Gives R.plain fault_in result (item_at (R.reads reader.now) n (view value.now)) }
{
    match reader.read(alloc, value) {
        Ok(read) => Ok(read),
        Err(fault) => Err(in_item(alloc, n, fault)),
    }
}

fn read_items<R: Reader>(
    alloc: Global,
    values: &[Value],
    reader: &R,
) -> Result<List<R::Out>, Unread<FileFault>>
    ensures { Gives (map R.plain) fault_in result
        (read_each (item_at (R.reads reader.now)) 0 (map view values.now)) }
{
    let mut read = List::with_capacity(alloc, values.len())?;
    for (n, value) in values.iter().enumerate() {
        let item = read_item(alloc, n, value, reader)?;
        read.push(item)?;
    }
    Ok(read)
}

/// A list, each of whose items is read by a reader, in order. `List` comes where it is no list.
#[tactic(auto, unfolding(crate::specs::Readings::each_item))]
pub fn each_item<R: Reader>(
    alloc: Global,
    value: &Value,
    reader: &R,
) -> Result<List<R::Out>, Unread<FileFault>>
    ensures { Gives (map R.plain) fault_in result
        (each_item (R.reads reader.now) (view value.now)) }
{
    match items(value) {
        Some(values) => read_items(alloc, values, reader),
        None => Err(wrong(alloc, Why::List)),
    }
}

/// A way to read a member of an object, by its key and its value.
pub trait MemberReader {
    /// What is read.
    type Out: Drop;

    ghost Plain: { Type 0 };

    ghost plain: { Self.Out → Plain };

    ghost reads: { Self → List ℕ → Data → Result Plain FileFault };

    /// What the member means, or its first fault, told from the member's value.
    fn read(&self, alloc: Global, key: &str, value: &Value) -> Result<Self::Out, Unread<FileFault>>
        ensures { Gives plain fault_in result (reads self.now key.now (view value.now)) };
}

fn read_member<R: MemberReader>(
    alloc: Global,
    key: &str,
    value: &Value,
    reader: &R,
) -> Result<R::Out, Unread<FileFault>>
    ensures { Gives R.plain fault_in result
        (member_at (R.reads reader.now) (key.now, view value.now)) }
{
    match reader.read(alloc, key, value) {
        Ok(read) => Ok(read),
        Err(fault) => Err(in_member(alloc, key, fault)),
    }
}

// Reads members into an empty list.
fn read_members_into<R: MemberReader>(
    alloc: Global,
    members: &Members<'_, '_>,
    reader: &R,
    read: &mut List<R::Out>,
) -> Result<(), Unread<FileFault>>
    requires empty { read.now ≡ [] }
    ensures { Gives (λ done. map R.plain read.new) fault_in result
        (members_by (R.reads reader.now) (entries_view members.now.entries)) }
{
    for (key, value) in members.iter() {
        let member = read_member(alloc, key, value, reader)?;
        read.push(member)?;
    }
    Ok(())
}

fn read_members<R: MemberReader>(
    alloc: Global,
    members: &Members<'_, '_>,
    reader: &R,
) -> Result<List<R::Out>, Unread<FileFault>>
    ensures { Gives (map R.plain) fault_in result
        (members_by (R.reads reader.now) (entries_view members.now.entries)) }
{
    let mut read = List::with_capacity(alloc, members.len())?;
    read_members_into(alloc, members, reader, &mut read)?;
    Ok(read)
}

// The same of members whose keys ascend as they stand in the document.
fn read_written<R: MemberReader>(
    alloc: Global,
    object: &[(&str, Value)],
    reader: &R,
) -> Result<List<R::Out>, Unread<FileFault>>
    ensures { Gives (map R.plain) fault_in result
        (read_each (λ _. member_at (R.reads reader.now)) 0 (map pair_of object.now)) }
{
    let mut read = List::with_capacity(alloc, object.len())?;
    for (key, value) in object {
        let member = read_member(alloc, key, value, reader)?;
        read.push(member)?;
    }
    Ok(read)
}

// The same of members that are put in order first.
fn read_by_key<'a, R: MemberReader>(
    alloc: Global,
    object: &[(&'a str, Value<'a>)],
    reader: &R,
) -> Result<List<R::Out>, Unread<FileFault>>
    ensures { Gives (map R.plain) fault_in result
        (members_by (R.reads reader.now) (members_data (members_view object.now) no_members)) }
{
    let members = by_key(alloc, object)?;
    read_members(alloc, &members, reader)
}

// The same of any members.
fn read_object<'a, R: MemberReader>(
    alloc: Global,
    object: &[(&'a str, Value<'a>)],
    reader: &R,
) -> Result<List<R::Out>, Unread<FileFault>>
    ensures { Gives (map R.plain) fault_in result
        (members_by (R.reads reader.now) (members_data (members_view object.now) no_members)) }
{
    if ascends(object) {
        read_written(alloc, object, reader)
    } else {
        read_by_key(alloc, object, reader)
    }
}

/// An object, each of whose members is read by a reader, in byte order of keys. The fault is
/// `Object` where it is no object.
#[tactic(auto, unfolding(crate::specs::Readings::each_member))]
pub fn each_member<R: MemberReader>(
    alloc: Global,
    value: &Value,
    reader: &R,
) -> Result<List<R::Out>, Unread<FileFault>>
    ensures read { Gives (map R.plain) fault_in result
        (each_member (R.reads reader.now) (view value.now)) }
    ensures order { IfOk result (λ read. KeysAscend (view value.now)) }
{
    match written(value) {
        Some(object) => read_object(alloc, object, reader),
        None => Err(wrong(alloc, Why::Object)),
    }
}

/// Checks only that the value is an object.
pub fn object(alloc: Global, value: &Value) -> Result<(), Unread<FileFault>>
    ensures { Gives (λ done. tt) fault_in result (object_at (view value.now)) }
{
    match value {
        Value::Object(_) => Ok(()),
        _ => Err(wrong(alloc, Why::Object)),
    }
}

/// Reads any text.
#[derive(Drop)]
pub struct AnyText;

impl Reader for AnyText {
    type Out = Text;

    ghost Plain = { List ℕ };

    ghost plain = { λ t. t };

    ghost reads = { λ r. text_at };

    fn read(&self, alloc: Global, value: &Value) -> Result<Text, Unread<FileFault>> {
        Ok(Text::from_str(alloc, text(alloc, value)?)?)
    }
}

/// Reads a truth value.
#[derive(Drop)]
pub struct AnyBoolean;

impl Reader for AnyBoolean {
    type Out = bool;

    ghost Plain = { Bool };

    ghost plain = { λ b. b };

    ghost reads = { λ r. bool_at };

    fn read(&self, alloc: Global, value: &Value) -> Result<bool, Unread<FileFault>> {
        boolean(alloc, value)
    }
}

/// Reads a whole number from 0 to 2^32 - 1.
#[derive(Drop)]
pub struct SmallNumber;

impl Reader for SmallNumber {
    type Out = u32;

    ghost Plain = { ℕ };

    ghost plain = { λ n. n };

    ghost reads = { λ r. number_at };

    fn read(&self, alloc: Global, value: &Value) -> Result<u32, Unread<FileFault>> {
        number(alloc, value)
    }
}

/// Reads a list, each item by the reader inside.
#[derive(Drop)]
pub struct ListOf<R>(pub R);

impl<R: Reader> Reader for ListOf<R> {
    type Out = List<R::Out>;

    ghost Plain = { List R.Plain };

    ghost plain = { map R.plain };

    ghost reads = { λ r. each_item (R.reads r.0) };

    fn read(&self, alloc: Global, value: &Value) -> Result<List<R::Out>, Unread<FileFault>> {
        each_item(alloc, value, &self.0)
    }
}

/// Reads an object, each member by the reader inside, in byte order of keys.
#[derive(Drop)]
pub struct ObjectOf<R>(pub R);

impl<R: MemberReader> Reader for ObjectOf<R> {
    type Out = List<R::Out>;

    ghost Plain = { List R.Plain };

    ghost plain = { map R.plain };

    ghost reads = { λ r. each_member (R.reads r.0) };

    fn read(&self, alloc: Global, value: &Value) -> Result<List<R::Out>, Unread<FileFault>> {
        each_member(alloc, value, &self.0)
    }
}
