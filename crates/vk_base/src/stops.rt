//! What a call answers in place of a value: a fault of what it was given, or that it was stopped.
ghost use Rattle.std.specs.Prelude.{◌≡◌};
ghost use Rattle.vk_base.specs.Stops.{out_of_memory, stop_of};
ghost use Rattle.vk_base.specs.declared.stops.Unread.TheVariants as unread;
ghost use Rattle.vk_base.specs.declared.stops.Outage.TheVariants as outage;
ghost use Rattle.vk_base.specs.declared.stops.Stop.TheVariants as stop;

use crate::memory::Memory;
use std::alloc::{AllocError, AllocFailed};

/// Why a call that asks nothing outside has no value.
#[derive(Clone, Copy, Debug, PartialEq, Eq, Drop)]
pub enum Unread<F> {
    /// A fault of what was to be read.
    Fault(F),
    /// Out of memory.
    Memory(Memory),
}

/// Why a call that asks a tree or a catalogue has no value.
#[derive(Clone, Copy, Debug, PartialEq, Eq, Drop)]
pub enum Stop<F> {
    /// A fault of what was to be read.
    Fault(F),
    /// The tree or the catalogue failed.
    Failed,
    /// Out of memory.
    Memory(Memory),
}

/// Why a call that asks a tree or a catalogue, and finds no fault, has no answer.
#[derive(Clone, Copy, Debug, PartialEq, Eq, Drop)]
pub enum Outage {
    /// The tree or the catalogue failed.
    Failed,
    /// Out of memory.
    Memory(Memory),
}

impl From<AllocError> for Outage {
    ghost from_gives = { λ _ e. e ≡ outage.Memory out_of_memory };

    fn from(lack: AllocError) -> Self {
        Outage::Memory(Memory::from(lack))
    }
}

impl<T: Drop> From<AllocFailed<T>> for Outage {
    ghost from_gives = { λ _ e. e ≡ outage.Memory out_of_memory };

    fn from(lack: AllocFailed<T>) -> Self {
        Outage::Memory(Memory::from(lack))
    }
}

impl From<Memory> for Outage {
    ghost from_gives = { λ m e. e ≡ outage.Memory m };

    fn from(memory: Memory) -> Self {
        Outage::Memory(memory)
    }
}

impl<F> From<Outage> for Stop<F> {
    ghost from_gives = { λ o e. e ≡ stop_of o };

    fn from(outage: Outage) -> Self {
        match outage {
            Outage::Failed => Stop::Failed,
            Outage::Memory(memory) => Stop::Memory(memory),
        }
    }
}

impl<F> From<AllocError> for Unread<F> {
    ghost from_gives = { λ _ e. e ≡ unread.Memory out_of_memory };

    fn from(lack: AllocError) -> Self {
        Unread::Memory(Memory::from(lack))
    }
}

impl<F, T: Drop> From<AllocFailed<T>> for Unread<F> {
    ghost from_gives = { λ _ e. e ≡ unread.Memory out_of_memory };

    fn from(lack: AllocFailed<T>) -> Self {
        Unread::Memory(Memory::from(lack))
    }
}

impl<F> From<Memory> for Unread<F> {
    ghost from_gives = { λ m e. e ≡ unread.Memory m };

    fn from(memory: Memory) -> Self {
        Unread::Memory(memory)
    }
}

impl<F> From<AllocError> for Stop<F> {
    ghost from_gives = { λ _ e. e ≡ stop.Memory out_of_memory };

    fn from(lack: AllocError) -> Self {
        Stop::Memory(Memory::from(lack))
    }
}

impl<F, T: Drop> From<AllocFailed<T>> for Stop<F> {
    ghost from_gives = { λ _ e. e ≡ stop.Memory out_of_memory };

    fn from(lack: AllocFailed<T>) -> Self {
        Stop::Memory(Memory::from(lack))
    }
}

impl<F> From<Memory> for Stop<F> {
    ghost from_gives = { λ m e. e ≡ stop.Memory m };

    fn from(memory: Memory) -> Self {
        Stop::Memory(memory)
    }
}
