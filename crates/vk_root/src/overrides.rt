//! The versions that a root sets, found by port without a scan.
ghost use Rattle.std.specs.Prelude.{◌≡◌, ◌++◌, ◌∷◌, [], ℕ, List, IfOk, OnOk, length, map};
ghost use Rattle.std.specs.Prelude.{option_map};
ghost use Rattle.vk_spec.specs.Manifests as plain;
ghost use Rattle.vk_spec.specs.Pages.{has_override};
ghost use Rattle.vk_version.specs.AskViews.{ask_view};
ghost use Rattle.vk_model.specs.Views.{override_view};
ghost use Rattle.vk_root.specs.Overrides.{override_for, ArePlaces};

use indexmap::IndexMap;
use std::alloc::Global;
use std::marker::Model;
use vk_base::{List, Memory, PortName};
use vk_model::Override;
use vk_version::Ask;

/// The versions that a root sets, each found by its port without a scan. Contracts see the list.
#[derive(Drop)]
pub struct Overrides {
    list: List<Override>,
    /// For each port, the place of the first override for it.
    places: IndexMap<PortName, usize>,
}

impl Model for Overrides {
    ghost use Rattle.std.specs.Prelude.{List, map};
    ghost use Rattle.vk_spec.specs.Manifests.{Override};
    ghost use Rattle.vk_model.specs.Views.{override_view};
    ghost use Rattle.vk_root.specs.Overrides.{ArePlaces};

    ghost Value = { List Override };

    ghost view = { λ o. map override_view o.list };

    ghost invariant = { λ o. ArePlaces (map override_view o.list) o.places.entries };
}

fn copy_of(name: &PortName) -> Result<PortName, Memory>
    ensures { IfOk result (λ n. n ≡ name.now) }
{
    Ok(name.clone()?)
}

// Notes the place of an override, unless one before has the same name.
fn note_place(
    places: &mut IndexMap<PortName, usize>,
    name: &PortName,
    place: usize,
) -> Result<(), Memory>
    ensures { OnOk result ((before : List plain.Override) (one : plain.Override)
        → length before ≡ place → one.name ≡ name.now → ArePlaces before places.old.entries
        → ArePlaces (before ++ one ∷ []) places.new.entries) }
{
    places.entry(copy_of(name)?)?.or_insert(place);
    Ok(())
}

fn places_of(alloc: Global, overrides: &[Override]) -> Result<IndexMap<PortName, usize>, Memory>
    ensures { IfOk result (λ places. ArePlaces (map override_view overrides.now) places.entries) }
{
    let mut places = IndexMap::new(alloc);
    for (place, one) in overrides.iter().enumerate() {
        note_place(&mut places, &one.name, place)?;
    }
    Ok(places)
}

impl Overrides {
    /// Copies overrides, to be looked up.
    pub fn of(alloc: Global, overrides: &List<Override>) -> Result<Overrides, Memory>
        ensures { IfOk result (λ o. o ≡ map override_view overrides.now) }
    {
        let places = places_of(alloc, overrides.as_slice())?;
        Ok(Overrides {
            list: overrides.clone()?,
            places,
        })
    }

    /// What is set for a port. Takes no memory.
    pub fn ask_for(&self, port: &PortName) -> Option<&Ask>
        ensures { option_map (λ a. ask_view a.now) result ≡ override_for self.now port.now }
    {
        let place = self.places.get(port)?;
        Some(&self.list.get(*place)?.ask)
    }

    /// Whether a version is set for a port. Takes no memory.
    pub fn has(&self, port: &PortName) -> bool
        ensures { result ≡ has_override self.now port.now }
    {
        self.ask_for(port).is_some()
    }
}
