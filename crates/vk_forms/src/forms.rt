//! How values are printed, so that they can be read back.
ghost use Rattle.std.specs.Prelude.{List, ℕ, IfOk, option_map};
ghost use Rattle.vk_forms.specs.Forms.{FindsOrNot, ReadsAs};

use std::alloc::Global;
use vk_base::{Memory, Unread};

/// A way in which values are printed.
pub trait Form {
    /// What is printed.
    type Out: Drop;

    ghost Plain: { Type 0 };

    ghost plain: { Self.Out → Plain };

    ghost prints: { Self → Plain → List ℕ };

    ghost is_right: { Self → Plain → Type 0 };

    /// The value of which this is the text; `None` exactly where it is the text of none.
    fn read(&self, alloc: Global, text: &str) -> Result<Option<Self::Out>, Memory>
        ensures { IfOk result (λ found. ReadsAs (prints self.now) (is_right self.now) text.now
            (option_map plain found)) };
}

/// A value, or `None` where there is a fault.
pub(crate) fn found<T, F: Drop>(reading: Result<T, Unread<F>>) -> Result<Option<T>, Memory>
    ensures { IfOk result (FindsOrNot reading) }
{
    match reading {
        Ok(value) => Ok(Some(value)),
        Err(Unread::Fault(_)) => Ok(None),
        Err(Unread::Memory(memory)) => Err(memory),
    }
}
