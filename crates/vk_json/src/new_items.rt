//! Readers of lists whose items each have a key of their own.
ghost use Rattle.std.specs.Prelude.{◌≡◌, ◌++◌, ◌∷◌, [], List, Result, IfOk, map};
ghost use Rattle.serde_json.specs.Data.{Data};
ghost use Rattle.vk_json.specs.Values.{view};
ghost use Rattle.vk_spec.specs.Reading.{Gives, read_after};
ghost use Rattle.vk_base.specs.Stops.{fault_in};
ghost use Rattle.vk_json.specs.declared.faults.FileFault.{FileFault};
ghost use Rattle.vk_json.specs.Places.{inside, item_step};
ghost use Rattle.vk_json.specs.NewItems.{each_new_item, new_item_at};

use crate::faults::{FileFault, Why};
use crate::getters::items;
use crate::places::{in_item, wrong};
use indexmap::IndexSet;
use json::Value;
use std::alloc::Global;
use std::hash::Hash;
use vk_base::{List, Unread};

/// A way to read an item of a list in which no two items have the same key.
pub trait NewItemReader {
    /// What is read.
    type Out: Drop;

    /// What no two items have alike.
    type Key: Eq + Hash + Drop;

    ghost Plain: { Type 0 };

    ghost plain: { Self.Out → Plain };

    ghost PlainKey: { Type 0 };

    ghost plain_key: { Self.Key → PlainKey };

    ghost key_of: { Plain → PlainKey };

    ghost reads: { Self → List PlainKey → Data → Result Plain FileFault };

    /// What the item means, or its first fault, where the items before it have these keys. The
    /// item's key is then one of them.
    fn read(
        &self,
        alloc: Global,
        value: &Value,
        keys: &mut IndexSet<Self::Key>,
    ) -> Result<Self::Out, Unread<FileFault>>
        ensures read { Gives plain fault_in result
            (reads self.now (map plain_key keys.old.keys) (view value.now)) }
        ensures noted { IfOk result (λ item. map plain_key keys.new.keys
            ≡ map plain_key keys.old.keys ++ key_of (plain item) ∷ []) };
}

fn read_new_item<R: NewItemReader>(
    alloc: Global,
    n: usize,
    value: &Value,
    keys: &mut IndexSet<R::Key>,
    reader: &R,
) -> Result<R::Out, Unread<FileFault>>
    ensures read { Gives R.plain fault_in result (inside (item_step n)
        (R.reads reader.now (map R.plain_key keys.old.keys) (view value.now))) }
    ensures noted { IfOk result (λ item. map R.plain_key keys.new.keys
        ≡ map R.plain_key keys.old.keys ++ R.key_of (R.plain item) ∷ []) }
{
    match reader.read(alloc, value, keys) {
        Ok(read) => Ok(read),
        Err(fault) => Err(in_item(alloc, n, fault)),
    }
}

// Reads items after those that were read, whose keys these are.
fn read_more_items<R: NewItemReader>(
    alloc: Global,
    values: &[Value],
    reader: &R,
    read: &mut List<R::Out>,
    keys: &mut IndexSet<R::Key>,
) -> Result<(), Unread<FileFault>>
    requires keys { map R.plain_key keys.now.keys ≡ map R.key_of (map R.plain read.now) }
    ensures read { Gives (λ done. map R.plain read.new) fault_in result
        (read_after (new_item_at R.key_of (R.reads reader.now)) (map R.plain read.old) 0
        (map view values.now)) }
    ensures keys { IfOk result (λ done. map R.plain_key keys.new.keys
        ≡ map R.key_of (map R.plain read.new)) }
{
    for (n, value) in values.iter().enumerate() {
        let item = read_new_item(alloc, n, value, keys, reader)?;
        read.push(item)?;
    }
    Ok(())
}

fn read_new_items<R: NewItemReader>(
    alloc: Global,
    values: &[Value],
    reader: &R,
) -> Result<(List<R::Out>, IndexSet<R::Key>), Unread<FileFault>>
    ensures read { Gives (λ r. map R.plain r.0) fault_in result
        (read_after (new_item_at R.key_of (R.reads reader.now)) [] 0 (map view values.now)) }
    ensures keys { IfOk result (λ r. map R.plain_key r.1.keys
        ≡ map R.key_of (map R.plain r.0)) }
{
    let mut read = List::with_capacity(alloc, values.len())?;
    let mut keys = IndexSet::with_capacity(alloc, values.len())?;
    match read_more_items(alloc, values, reader, &mut read, &mut keys) {
        Ok(()) => Ok((read, keys)),
        Err(e) => {
            drop(read);
            drop(keys);
            Err(e)
        }
    }
}

/// A list, each of whose items has a key of its own and is read by a reader, in order, and the
/// items' keys. `List` comes where it is no list.
#[tactic(auto, unfolding(crate::specs::NewItems::each_new_item))]
pub fn each_new_item<R: NewItemReader>(
    alloc: Global,
    value: &Value,
    reader: &R,
) -> Result<(List<R::Out>, IndexSet<R::Key>), Unread<FileFault>>
    ensures read { Gives (λ r. map R.plain r.0) fault_in result
        (each_new_item R.key_of (R.reads reader.now) (view value.now)) }
    ensures keys { IfOk result (λ r. map R.plain_key r.1.keys
        ≡ map R.key_of (map R.plain r.0)) }
{
    match items(value) {
        Some(values) => read_new_items(alloc, values, reader),
        None => Err(wrong(alloc, Why::List)),
    }
}
