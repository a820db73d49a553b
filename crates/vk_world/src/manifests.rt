//! The manifests that were found.
ghost use Rattle.std.specs.Prelude.{◌≡◌, [], IfOk, option_map, false};
ghost use Rattle.std.specs.Option.{option_copied};
ghost use Rattle.vk_spec.specs.Files.{Files};
ghost use Rattle.vk_base.specs.Stops.{was_out};
ghost use Rattle.vk_version.specs.AskViews.{ask_view};
ghost use Rattle.vk_catalogue.specs.Views.{manifest_said};
ghost use Rattle.vk_opening.specs.Layouts.{Layout};
ghost use Rattle.vk_world.specs.ManifestNotes.{manifests_in, manifest_noted, AreManifests};
ghost use Rattle.vk_world.specs.ManifestNotes.{IsManifestOf, kept_manifest};

use crate::port_asks::PortAsk;
use indexmap::IndexMap;
use std::alloc::Global;
use std::rc::Rc;
use vk_base::Outage;
use vk_catalogue::Wrong;
use vk_model::Manifest;

/// A manifest, or what is wrong with it, which is rare and large and so in a block of its own.
pub type Kept = Result<Rc<Manifest>, Box<Wrong>>;

/// The manifests that were found, or what is wrong with them, by port and ask. Each was compared
/// with its table when it was found, and stays as it is.
#[derive(Drop)]
pub struct Manifests {
    found: IndexMap<PortAsk, Kept>,
}

/// What was found, once more.
pub fn shared(kept: &Kept) -> Result<Result<Rc<Manifest>, Wrong>, Outage>
    ensures told { IfOk result (λ again. manifest_said again ≡ kept_manifest kept.now) }
    ensures calm { was_out result ≡ false }
{
    match kept {
        Ok(manifest) => Ok(Ok(manifest.clone()?)),
        Err(wrong) => Ok(Err(wrong.as_ref().clone()?)),
    }
}

// What was found, to be kept.
fn kept(alloc: Global, found: &Result<Rc<Manifest>, Wrong>) -> Result<Kept, Outage>
    ensures told { IfOk result (λ kept. kept_manifest kept ≡ manifest_said found.now) }
    ensures calm { was_out result ≡ false }
{
    match found {
        Ok(manifest) => Ok(Ok(manifest.clone()?)),
        Err(wrong) => Ok(Err(Box::new(alloc, wrong.clone()?)?)),
    }
}

impl Manifests {
    /// None was found yet. Takes no memory.
    pub fn new(alloc: Global) -> Manifests
        ensures { manifests_in result ≡ [] }
    {
        Manifests {
            found: IndexMap::new(alloc),
        }
    }

    /// Keeps what was found for a port and an ask. What is kept stays right, also when memory runs
    /// out.
    pub fn keep(
        &mut self,
        alloc: Global,
        key: PortAsk,
        found: &Result<Rc<Manifest>, Wrong>,
    ) -> Result<(), Outage>
        ensures right { (layout : Layout) (files : Files) → AreManifests layout self.old files
            → IsManifestOf layout files key.port (ask_view key.ask) (manifest_said found.now)
            → AreManifests layout self.new files }
        ensures calm { was_out result ≡ false }
    {
        let kept = kept(alloc, found)?;
        drop(self.found.insert(key, kept)?);
        Ok(())
    }

    /// What was found for a port and an ask; `None` exactly where nothing was.
    pub fn get(&self, key: &PortAsk) -> Option<&Kept>
        ensures { option_map kept_manifest (option_copied result)
            ≡ manifest_noted key.now self.now }
    {
        self.found.get(key)
    }
}
