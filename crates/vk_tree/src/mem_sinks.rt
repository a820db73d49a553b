//! A sink in memory.
ghost use Rattle.std.specs.Prelude.{◌≡◌, ◌∷◌, IfOk, OnOk, OnErr, Some, [], true};
ghost use Rattle.std.specs.Result.{result_ok};
ghost use Rattle.vk_spec.specs.Counts.{Counted};
ghost use Rattle.vk_spec.specs.Sinks.{SinkState, Puts, is_stopped};
ghost use Rattle.vk_base.specs.Schedules.{with_listed, with_stop, raised};
ghost use Rattle.vk_tree.specs.MemSinks.{IsNewSink, MemPuts, Rescheduled, sink_state};
ghost use Rattle.vk_tree.specs.MemSinks.{sink_schedule};

use crate::buffers::Buffer;
use crate::sinks::{Sink, SinkFailed};
use std::alloc::Global;
use vk_base::{Memory, Schedule, Turn};

/// A sink in memory that tells what it took.
#[derive(Drop)]
pub struct MemSink {
    alloc: Global,
    buffer: Buffer,
    faults: u64,
    failures: u64,
    schedule: Schedule,
}

impl MemSink {
    /// A sink with room for so many bytes, for which it takes the memory. It has taken nothing,
    /// its count is 0, and no call is to go wrong.
    pub fn new(alloc: Global, room: usize) -> Result<MemSink, Memory>
        ensures { IfOk result (λ m. IsNewSink room m) }
    {
        Ok(MemSink {
            alloc,
            buffer: Buffer::new(alloc, room)?,
            faults: 0,
            failures: 0,
            schedule: Schedule::new(alloc),
        })
    }

    /// The calls of `put` with these numbers, counted from 1, fail, in place of those named
    /// before. The calls are counted on.
    pub fn fail_at(&mut self, calls: &[u64]) -> Result<(), Memory>
        ensures ok { OnOk result
            (Rescheduled (with_listed calls.now (sink_schedule self.old)) self.old self.new) }
        ensures err { OnErr result (self.new ≡ self.old) }
    {
        self.schedule.list(self.alloc, calls)?;
        Ok(())
    }

    /// That call of `put`, counted from 1, and every later one takes nothing of a piece that isn't
    /// empty, in place of the call named before; `u64::MAX` names none. Takes no memory.
    pub fn take_nothing_from(&mut self, call: u64)
        ensures { Rescheduled (with_stop call (sink_schedule self.old)) self.old self.new }
    {
        self.schedule.stop_at(call);
    }

    /// What it took. Takes no memory.
    pub fn bytes(&self) -> &[u8]
        ensures { Some result.now ≡ (sink_state self.now).taken }
    {
        self.buffer.bytes()
    }
}

// Raises the count where a call took nothing of a piece that isn't empty.
fn raise_where_stopped(faults: &mut u64, piece: &[u8], count: usize)
    ensures raised { faults.new ≡ raised (is_stopped piece.now (Some count)) faults.old }
    ensures counted { Counted (is_stopped piece.now (Some count)) faults.old faults.new }
{
    if count == 0 && !piece.is_empty() {
        *faults = faults.saturating_add(1);
    }
}

impl Sink for MemSink {
    ghost state = { sink_state };

    fn put(&mut self, piece: &[u8]) -> Result<usize, SinkFailed>
        ensures puts { Puts piece.now (result_ok result) (sink_state self.old)
            (sink_state self.new) }
        ensures exact { MemPuts piece.now (result_ok result) self.old self.new }
    {
        match self.schedule.next() {
            Turn::Listed => {
                self.faults = self.faults.saturating_add(1);
                self.failures = self.failures.saturating_add(1);
                Err(SinkFailed)
            }
            Turn::Stopped => {
                raise_where_stopped(&mut self.faults, piece, 0);
                Ok(0)
            }
            Turn::Free => {
                let count = self.buffer.fill(piece);
                raise_where_stopped(&mut self.faults, piece, count);
                Ok(count)
            }
        }
    }

    fn faults(&self) -> u64 {
        self.faults
    }
}
