//! How many bytes may still be read.
ghost use Rattle.vk_folder.specs.Hashed.{Took};

use vk_base::{Limit, Stop};

/// How many bytes files may have together, and how many of them are left.
#[derive(Clone, Copy)]
pub(crate) struct Room {
    pub(crate) most: u64,
    pub(crate) left: u64,
}

impl Room {
    /// The room after so many bytes more, unless it hasn't as many.
    pub(crate) fn take(self, bytes: usize) -> Result<Room, Stop<Limit>>
        ensures { Took self bytes result }
    {
        let bytes = bytes as u64;
        if bytes > self.left {
            return Err(Stop::Fault(Limit::Bytes(self.most)));
        }
        Ok(Room {
            most: self.most,
            left: self.left - bytes,
        })
    }
}
