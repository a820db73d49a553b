//! The word for what is wrong with a text.
ghost use Rattle.std.specs.Prelude.{◌≡◌, option_map};
ghost use Rattle.vk_base.specs.Stops.{fault_in};
ghost use Rattle.vk_json.specs.declared.faults.Why.{Why};
ghost use Rattle.vk_json.specs.Places.{here};
ghost use Rattle.vk_fields.specs.Wording.{name_word, path_word, version_word, expression_word};
ghost use Rattle.vk_fields.specs.Saying.{IsSaid};

use std::alloc::Global;
use vk_base::{NameFault, PathFault, Unread};
use vk_expr::ExprFault;
use vk_json::{FileFault, Why, wrong};
use vk_version::VersionFault;

/// A fault of a text that has a word in files.
pub trait Worded {
    ghost word: { Self → Why };

    /// The word.
    fn why(&self) -> Why
        ensures { result ≡ word self.now };
}

impl Worded for NameFault {
    ghost word = { name_word };

    fn why(&self) -> Why {
        match self {
            NameFault::Bad { .. } => Why::Name,
            NameFault::Reserved => Why::Reserved,
        }
    }
}

impl Worded for PathFault {
    ghost word = { path_word };

    fn why(&self) -> Why {
        match self {
            PathFault::Empty | PathFault::TooLong | PathFault::Zero { .. } => Why::Path,
        }
    }
}

impl Worded for VersionFault {
    ghost word = { version_word };

    fn why(&self) -> Why {
        match self {
            VersionFault::Shape => Why::Version,
            VersionFault::Number => Why::Range,
            VersionFault::Day => Why::Day,
        }
    }
}

impl Worded for ExprFault {
    ghost word = { expression_word };

    fn why(&self) -> Why {
        match self {
            ExprFault::Unexpected { at } => Why::Unexpected(*at),
            ExprFault::Mixed { at } => Why::Mixed(*at),
            ExprFault::Open { at } => Why::Open(*at),
            ExprFault::Deep => Why::Depth,
        }
    }
}

// Why a text wasn't read, told of the value that is the text.
fn told_by_word<F: Worded + Drop>(alloc: Global, unread: Unread<F>) -> Unread<FileFault>
    ensures { fault_in result ≡ option_map (λ fault. here (F.word fault)) (fault_in unread) }
{
    match unread {
        Unread::Fault(fault) => wrong(alloc, fault.why()),
        Unread::Memory(memory) => Unread::Memory(memory),
    }
}

/// What a text reads as, its fault told by its word, of the value that is the text.
pub fn said<T: Drop, F: Worded + Drop>(
    alloc: Global,
    read: Result<T, Unread<F>>,
) -> Result<T, Unread<FileFault>>
    ensures { IsSaid F.word read result }
{
    match read {
        Ok(value) => Ok(value),
        Err(unread) => Err(told_by_word(alloc, unread)),
    }
}
