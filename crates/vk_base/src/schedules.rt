ghost use Rattle.std.specs.Prelude.{◌≡◌, ◌≤◌, true, false, OnOk, OnErr};
ghost use Rattle.vk_base.specs.Schedules.{turn_of, is_calm, is_wrong, with_call, with_listed};
ghost use Rattle.vk_base.specs.Schedules.{with_stop};

use crate::lists::List;
use std::alloc::{AllocError, Global};

/// How the next call of a fake goes.
#[derive(Clone, Copy, Debug, PartialEq, Eq)]
pub enum Turn {
    /// It is one of those that are listed.
    Listed,
    /// It is at or after the one where the fake stops.
    Stopped,
    /// It goes well.
    Free,
}

/// Which calls of a fake are to go wrong, by their numbers counted from 1.
#[derive(Drop)]
pub struct Schedule {
    calls: u64,
    listed: List<u64>,
    from: u64,
}

impl Schedule {
    /// No call was made, and none is to go wrong. Takes no memory.
    pub fn new(alloc: Global) -> Schedule
        ensures calls { result.calls ≡ 0 }
        ensures calm { is_calm result ≡ true }
    {
        Schedule {
            calls: 0,
            listed: List::new(alloc),
            from: u64::MAX,
        }
    }

    /// These calls are listed, in place of those that were. The calls are counted on.
    pub fn list(&mut self, alloc: Global, calls: &[u64]) -> Result<(), AllocError>
        ensures ok { OnOk result (self.new ≡ with_listed calls.now self.old) }
        ensures err { OnErr result (self.new ≡ self.old) }
    {
        self.listed = List::from_slice(alloc, calls)?;
        Ok(())
    }

    /// From this call on the fake is stopped; `u64::MAX` stops nothing. Takes no memory.
    pub fn stop_at(&mut self, call: u64)
        ensures { self.new ≡ with_stop call self.old }
    {
        self.from = call;
    }

    /// Counts a call, and tells how it goes.
    pub fn next(&mut self) -> Turn
        ensures turn { result ≡ turn_of self.old }
        ensures calm { is_calm self.old ≡ true → result ≡ Turn.Free }
        ensures counted { self.new ≡ with_call self.old }
        ensures later { self.old.calls ≤ self.new.calls }
    {
        self.calls = self.calls.saturating_add(1);
        if self.listed.as_slice().contains(&self.calls) {
            return Turn::Listed;
        }
        if self.from <= self.calls && self.from < u64::MAX {
            return Turn::Stopped;
        }
        Turn::Free
    }

    /// Counts a call, and tells whether it goes wrong.
    pub fn next_is_wrong(&mut self) -> bool
        ensures wrong { result ≡ is_wrong (turn_of self.old) }
        ensures calm { is_calm self.old ≡ true → result ≡ false }
        ensures counted { self.new ≡ with_call self.old }
        ensures later { self.old.calls ≤ self.new.calls }
    {
        match self.next() {
            Turn::Listed => true,
            Turn::Stopped => true,
            Turn::Free => false,
        }
    }
}
