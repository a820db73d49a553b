//! What may be wrong with the words.
ghost use Rattle.std.specs.Prelude.{◌≡◌, ◌++◌, IfOk, codes};
ghost use Rattle.vk_words.specs.FaultTexts.{fault_text_of, numbered, required_name};

use std::alloc::Global;
use vk_base::{Memory, Text};

/// An option that a command can't be without.
#[derive(Clone, Copy, Debug, PartialEq, Eq)]
pub enum Opt {
    /// `--triplet`, of every command but `self-load`.
    Triplet,
    /// `--port`, of `abi`.
    Port,
    /// `--cache`, of `install`.
    Cache,
    /// `--report`, of `check`.
    Report,
    /// `--size`, of `self-load`.
    Size,
}

/// Why words are no command line. Of one word the first in this order; numbers count words from 1.
#[derive(Clone, Copy, Debug, PartialEq, Eq)]
pub enum WordFault {
    /// There is no word.
    NoCommand,
    /// A word that is neither a command nor an option of it: an unknown name, an option that the
    /// command hasn't, a flag with `=`, or a word that isn't text.
    Unknown(u32),
    /// An option without the `=` that comes before its value.
    NoValue(u32),
    /// An option that stands a second time and may not repeat.
    Twice(u32),
    /// A value that the option can't have.
    BadValue(u32),
    /// An option that the command needs doesn't stand.
    Lacks(Opt),
}

impl Opt {
    // The option, as it is written.
    fn name(self) -> &'static str
        ensures { result.now ≡ required_name self }
    {
        match self {
            Opt::Triplet => "--triplet",
            Opt::Port => "--port",
            Opt::Cache => "--cache",
            Opt::Report => "--report",
            Opt::Size => "--size",
        }
    }
}

// A fault's name, and the number of its word.
fn numbered(alloc: Global, name: &str, number: u32) -> Result<Text, Memory>
    ensures { IfOk result (λ t. t ≡ numbered name.now number) }
{
    Ok(Text::from_string(format!(in alloc; "{name} {number}")?))
}

// An option that doesn't stand.
fn lacking(alloc: Global, option: Opt) -> Result<Text, Memory>
    ensures { IfOk result (λ t. t ≡ codes "lacks " ++ required_name option) }
{
    let name = option.name();
    Ok(Text::from_string(format!(in alloc; "lacks {name}")?))
}

/// The fault as it is printed: its name, and then the word's number or the option.
pub fn fault_text(alloc: Global, fault: &WordFault) -> Result<Text, Memory>
    ensures { IfOk result (λ t. t ≡ fault_text_of fault.now) }
{
    match *fault {
        WordFault::NoCommand => Ok(Text::from_str(alloc, "no-command")?),
        WordFault::Unknown(number) => numbered(alloc, "unknown", number),
        WordFault::NoValue(number) => numbered(alloc, "no-value", number),
        WordFault::Twice(number) => numbered(alloc, "twice", number),
        WordFault::BadValue(number) => numbered(alloc, "bad-value", number),
        WordFault::Lacks(option) => lacking(alloc, option),
    }
}
