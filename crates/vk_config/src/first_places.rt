//! For each text the place that was noted first.
ghost use Rattle.std.specs.Prelude.{◌≡◌, List, ℕ, Some, None, OnOk, bytes_eq, if◌then◌else◌};
ghost use Rattle.std.specs.Option.{option_or};
ghost use Rattle.vk_config.specs.IndexViews.{text_place};

use indexmap::IndexMap;
use std::alloc::Global;
use vk_base::Memory;

/// For each text the place that was noted first.
#[derive(Drop)]
pub struct FirstPlaces {
    inner: IndexMap<Vec<u8>, usize>,
}

impl FirstPlaces {
    /// No texts. Takes no memory.
    pub fn new(alloc: Global) -> FirstPlaces
        ensures { (text : List ℕ) → text_place result text ≡ None }
    {
        FirstPlaces {
            inner: IndexMap::new(alloc),
        }
    }

    /// The place of a text; `None` exactly where none was noted.
    pub fn get(&self, text: &[u8]) -> Option<usize>
        ensures { result ≡ text_place self.now text.now }
    {
        self.inner.get(text).copied()
    }

    /// Notes a place for a text that has none.
    pub fn put(&mut self, alloc: Global, text: &[u8], place: usize) -> Result<(), Memory>
        ensures { OnOk result ((other : List ℕ) → text_place self.new other
            ≡ option_or (text_place self.old other)
            (if bytes_eq other text.now then Some place else None)) }
    {
        if self.get(text).is_none() {
            self.inner.insert(Vec::from_slice(alloc, text)?, place)?;
        }
        Ok(())
    }
}
