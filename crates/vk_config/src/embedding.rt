//! The configuration in a root manifest.
ghost use Rattle.std.specs.Prelude.{◌≡◌, option_map};
ghost use Rattle.vk_json.specs.Values.{view};
ghost use Rattle.vk_spec.specs.Reading.{Gives};
ghost use Rattle.vk_base.specs.Stops.{fault_in};
ghost use Rattle.vk_config.specs.Embedding.{has_both, either, only_one, embedded_at, embedded_of};
ghost use Rattle.vk_config.specs.Views.{config_view, embedded_view};

use crate::config_files::ConfigObject;
use crate::configs::{Config, Embedded};
use std::alloc::Global;
use vk_base::Unread;
use vk_json::{Doc, FileFault, Scratch, Value, member, optional};

fn has_both(value: &Value) -> bool
    ensures { result ≡ has_both (view value.now) }
{
    member(value, "vcpkg-configuration").is_some() && member(value, "configuration").is_some()
}

fn either(first: Option<Config>, second: Option<Config>) -> Embedded
    ensures { embedded_view result
        ≡ either (option_map config_view first) (option_map config_view second) }
{
    match first {
        Some(config) => Embedded::One(config),
        None => match second {
            Some(config) => Embedded::One(config),
            None => Embedded::Nothing,
        },
    }
}

#[tactic(auto, unfolding(crate::specs::Embedding::only_one))]
fn read_one(alloc: Global, value: &Value) -> Result<Embedded, Unread<FileFault>>
    ensures { Gives embedded_view fault_in result (only_one (view value.now)) }
{
    let first = optional(alloc, value, "vcpkg-configuration", &ConfigObject)?;
    match optional(alloc, value, "configuration", &ConfigObject) {
        Ok(second) => Ok(either(first, second)),
        Err(fault) => {
            drop(first);
            Err(fault)
        }
    }
}

/// The configuration in a root manifest that is read already. `Two` comes where both keys are
/// there, whatever their values are; else the places of faults begin with the key. A value that is
/// no object has none: the manifest's own reader refuses it.
#[tactic(auto, unfolding(crate::specs::Embedding::embedded_at))]
pub fn embedded_in(alloc: Global, value: &Value) -> Result<Embedded, Unread<FileFault>>
    ensures { Gives embedded_view fault_in result (embedded_at (view value.now)) }
{
    if has_both(value) {
        return Ok(Embedded::Two);
    }
    read_one(alloc, value)
}

/// The configuration in a root manifest, by its bytes; as `embedded_in`, after `Json` for bytes
/// that are no document.
pub fn embedded(alloc: Global, bytes: &[u8]) -> Result<Embedded, Unread<FileFault>>
    ensures { Gives embedded_view fault_in result (embedded_of bytes.now) }
{
    let mut scratch = Scratch::new(alloc);
    let doc = Doc::read(alloc, bytes, &mut scratch)?;
    embedded_in(alloc, doc.value())
}
