//! The names and versions that the pages of a load mention.

use std::alloc::Global;
use vk_base::{List, PortName, Unread};
use vk_version::{Scheme, Version, read};

/// What can't be made: a name that is none, or out of memory.
pub type Unmade = Unread<NoLoad>;

/// A part of the load has no reading.
#[derive(Clone, Copy, Debug, PartialEq, Eq, Drop)]
pub struct NoLoad;

/// How the names and versions are made that pages mention.
#[derive(Clone, Copy, Debug, PartialEq, Eq)]
pub enum Making {
    /// Each once, and shared by all that mention it.
    Once,
    /// Anew for each that mentions it.
    Anew,
}

/// The names of ports with these numbers, and the two versions that they have.
#[derive(Drop)]
pub struct Parts {
    alloc: Global,
    making: Making,
    first: u64,
    names: List<PortName>,
    lower: Version,
    higher: Version,
}

// What is read, of a text that has a reading.
fn made<T, F: Drop>(reading: Result<T, Unread<F>>) -> Result<T, Unmade> {
    match reading {
        Ok(value) => Ok(value),
        Err(Unread::Fault(_)) => Err(Unread::Fault(NoLoad)),
        Err(Unread::Memory(memory)) => Err(Unread::Memory(memory)),
    }
}

fn name_of(alloc: Global, number: u64) -> Result<PortName, Unmade> {
    let text = format!(in alloc; "p{number:04}")?;
    made(PortName::read(alloc, text.as_str()))
}

fn names_of(alloc: Global, first: u64, end: u64) -> Result<List<PortName>, Unmade> {
    let mut names = List::new(alloc);
    for number in first..end {
        names.push(name_of(alloc, number)?)?;
    }
    Ok(names)
}

fn lower_of(alloc: Global) -> Result<Version, Unmade> {
    made(read(alloc, Scheme::Relaxed, "1.0", 0))
}

fn higher_of(alloc: Global) -> Result<Version, Unmade> {
    made(read(alloc, Scheme::Relaxed, "1.1", 0))
}

impl Parts {
    /// Those of the ports from the first number up to the end.
    pub fn of(alloc: Global, making: Making, first: u64, end: u64) -> Result<Parts, Unmade> {
        let names = names_of(alloc, first, end)?;
        let lower = lower_of(alloc)?;
        match higher_of(alloc) {
            Ok(higher) => Ok(Parts {
                alloc,
                making,
                first,
                names,
                lower,
                higher,
            }),
            Err(unmade) => {
                drop(names);
                drop(lower);
                Err(unmade)
            }
        }
    }

    fn kept_name(&self, number: u64) -> Result<PortName, Unmade> {
        match self.names.get(number.saturating_sub(self.first) as usize) {
            Some(name) => Ok(name.clone()?),
            None => Err(Unread::Fault(NoLoad)),
        }
    }

    /// The name of a port.
    pub fn name(&self, number: u64) -> Result<PortName, Unmade> {
        match self.making {
            Making::Once => self.kept_name(number),
            Making::Anew => name_of(self.alloc, number),
        }
    }

    /// The lower version, which the baseline gives.
    pub fn lower(&self) -> Result<Version, Unmade> {
        match self.making {
            Making::Once => Ok(self.lower.clone()?),
            Making::Anew => lower_of(self.alloc),
        }
    }

    /// The higher version.
    pub fn higher(&self) -> Result<Version, Unmade> {
        match self.making {
            Making::Once => Ok(self.higher.clone()?),
            Making::Anew => higher_of(self.alloc),
        }
    }
}
