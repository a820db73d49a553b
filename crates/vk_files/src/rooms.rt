//! The room that reading JSON needs.

use std::alloc::Global;
use vk_base::Memory;
use vk_json::Scratch;

/// The room that reading JSON needs, one for all files. It is some 16 KB large, so it lies in a
/// block of its own, which is taken for the first file.
#[derive(Drop)]
pub(crate) struct Room {
    block: Option<Box<Scratch>>,
}

impl Room {
    /// A room that has no block yet. Takes no memory.
    pub(crate) fn new() -> Room {
        Room { block: None }
    }

    /// The room's block.
    pub(crate) fn scratch(&mut self, alloc: Global) -> Result<&mut Scratch, Memory> {
        if self.block.is_none() {
            self.block = Some(Box::new(alloc, Scratch::new(alloc))?);
        }
        Ok(self.block.as_mut().unwrap())
    }
}
