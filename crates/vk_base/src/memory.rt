ghost use Rattle.std.specs.Prelude.{◌≡◌};
ghost use Rattle.vk_base.specs.Stops.{out_of_memory};

use std::alloc::{AllocError, AllocFailed};

/// Out of memory: the one answer that no contract ties to a cause. So the type stands for it: its
/// field is private, and `?` makes it from an allocation that failed.
#[derive(Clone, Copy, Debug, PartialEq, Eq)]
pub struct Memory {
    told: (),
}

impl Memory {
    /// Out of memory, told where no allocation of ours failed: by another library, or by the host,
    /// or in place of a number that can't be had or of an answer that can't come. Each caller is
    /// listed in `docs/DECISIONS.md`.
    pub fn without_allocation() -> Memory
        ensures { result ≡ out_of_memory }
    {
        Memory { told: () }
    }
}

impl From<AllocError> for Memory {
    ghost from_gives = { λ _ m. m ≡ out_of_memory };

    fn from(_: AllocError) -> Self {
        Memory { told: () }
    }
}

impl<T: Drop> From<AllocFailed<T>> for Memory {
    ghost from_gives = { λ _ m. m ≡ out_of_memory };

    fn from(_: AllocFailed<T>) -> Self {
        Memory { told: () }
    }
}
