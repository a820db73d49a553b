//! Instances, ready to be looked up.
ghost use Rattle.std.specs.Prelude.{◌≡◌, OnOk, IfOk};
ghost use Rattle.indexmap.specs.IndexSet.{insert_key};
ghost use Rattle.vk_root.specs.Offs.{AreOff, is_same};

use indexmap::IndexSet;
use std::alloc::Global;
use vk_base::{Instance, Memory};

// Puts an instance into a set, unless it is there.
fn put(set: &mut IndexSet<Instance>, instance: &Instance) -> Result<(), Memory>
    ensures { OnOk result (set.new.keys ≡ insert_key is_same set.old.keys instance.now) }
{
    set.insert(instance.clone()?)?;
    Ok(())
}

// The instances of a list, ready to be looked up.
pub fn set_of(alloc: Global, instances: &[Instance]) -> Result<IndexSet<Instance>, Memory>
    ensures { IfOk result (λ set. AreOff instances.now set.keys) }
{
    let mut set = IndexSet::new(alloc);
    for instance in instances {
        put(&mut set, instance)?;
    }
    Ok(set)
}
