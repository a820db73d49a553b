//! The versions that a root sets.
ghost use Rattle.std.specs.Prelude.{◌≡◌, ◌++◌, ℕ, List, [], ◌∷◌, map, IfOk, OnOk};
ghost use Rattle.vk_json.specs.Values.{view};
ghost use Rattle.vk_spec.specs.Reading.{Gives};
ghost use Rattle.vk_spec.specs.Manifests as plain;
ghost use Rattle.vk_base.specs.Stops.{fault_in};
ghost use Rattle.vk_version.specs.AskViews.{ask_view};
ghost use Rattle.vk_model.specs.Views.{override_view};
ghost use Rattle.vk_manifest.specs.Manifests.{new_name, new_name_at, override_ask_at};
ghost use Rattle.vk_manifest.specs.Manifests.{override_from};
ghost use Rattle.vk_manifest.specs.Manifests.{overrides_at, overrides_in};

use indexmap::IndexSet;
use std::alloc::Global;
use vk_base::{List, PortName, Unread};
use vk_fields::{PortNameText, key, scheme_needed, written_ask_under};
use vk_json::{
    FileFault, NewItemReader, Reader, Value, Why, each_new_item, object, optional_or, wanted,
    wrong_member,
};
use vk_model::Override;
use vk_version::Ask;

// That no override before has this name, which is then noted.
fn note_name(
    alloc: Global,
    names: &mut IndexSet<PortName>,
    name: &PortName,
) -> Result<(), Unread<FileFault>>
    ensures new { Gives (λ done. tt) fault_in result (new_name names.old.keys name.now) }
    ensures noted { OnOk result (names.new.keys ≡ names.old.keys ++ name.now ∷ []) }
{
    if names.insert(name.clone()?)? {
        return Ok(());
    }
    Err(wrong_member(alloc, "name", Why::Twice))
}

// The name of an override, which no override before has.
#[tactic(auto, unfolding(crate::specs::Manifests::new_name_at))]
fn read_name(
    alloc: Global,
    value: &Value,
    names: &mut IndexSet<PortName>,
) -> Result<PortName, Unread<FileFault>>
    ensures name { Gives (λ n. n) fault_in result (new_name_at names.old.keys (view value.now)) }
    ensures noted { IfOk result (λ name. names.new.keys ≡ names.old.keys ++ name ∷ []) }
{
    let name = wanted(alloc, value, "name", &PortNameText)?;
    note_name(alloc, names, &name)?;
    Ok(name)
}

#[tactic(auto, unfolding(crate::specs::Manifests::override_ask_at))]
fn read_ask(alloc: Global, value: &Value) -> Result<Ask, Unread<FileFault>>
    ensures { Gives ask_view fault_in result (override_ask_at (view value.now)) }
{
    let scheme = scheme_needed(alloc, value)?;
    written_ask_under(alloc, value, key(scheme))
}

// Reads an override, whose name no override before has.
#[derive(Drop)]
struct NewOverride;

#[tactic(auto, unfolding(crate::specs::Manifests::override_from))]
impl NewItemReader for NewOverride {
    type Out = Override;

    type Key = PortName;

    ghost Plain = { plain.Override };

    ghost plain = { override_view };

    ghost PlainKey = { List ℕ };

    ghost plain_key = { λ name. name };

    ghost key_of = { λ o. o.name };

    ghost reads = { λ r. override_from };

    fn read(
        &self,
        alloc: Global,
        value: &Value,
        names: &mut IndexSet<PortName>,
    ) -> Result<Override, Unread<FileFault>> {
        object(alloc, value)?;
        let name = read_name(alloc, value, names)?;
        let ask = read_ask(alloc, value)?;
        Ok(Override { name, ask })
    }
}

// Reads the overrides.
#[derive(Drop)]
struct OverrideList;

impl Reader for OverrideList {
    type Out = List<Override>;

    ghost Plain = { List plain.Override };

    ghost plain = { map override_view };

    ghost reads = { λ r. overrides_at };

    fn read(&self, alloc: Global, value: &Value) -> Result<List<Override>, Unread<FileFault>> {
        let (read, _) = each_new_item(alloc, value, &NewOverride)?;
        Ok(read)
    }
}

/// The overrides, each with a name of its own. `Twice` comes for a name that an earlier one has.
pub fn overrides(alloc: Global, value: &Value) -> Result<List<Override>, Unread<FileFault>>
    ensures { Gives (map override_view) fault_in result (overrides_in (view value.now)) }
{
    optional_or(alloc, value, "overrides", &OverrideList, List::new(alloc))
}
