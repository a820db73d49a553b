//! The standard streams as sinks.
ghost use Rattle.std.specs.Prelude.{None};

use std::io::Write;
use vk_tree::{Sink, SinkFailed};

/// A sink over a standard stream. It tells nothing of what it took, and counts each error and
/// each write that takes nothing of a piece that isn't empty.
#[derive(Drop)]
pub struct OutSink<W> {
    stream: W,
    faults: u64,
    failures: u64,
}

impl<W: Write> OutSink<W> {
    /// A sink whose counts are 0.
    pub fn new(stream: W) -> OutSink<W> {
        OutSink {
            stream,
            faults: 0,
            failures: 0,
        }
    }
}

impl<W: Write> Sink for OutSink<W> {
    ghost state = { λ s. record {
      taken = None;
      faults = s.faults;
      failures = s.failures;
      room = 0;
    } };

    fn put(&mut self, piece: &[u8]) -> Result<usize, SinkFailed> {
        match self.stream.write(piece) {
            Ok(count) => {
                if count == 0 && !piece.is_empty() {
                    self.faults = self.faults.saturating_add(1);
                }
                Ok(count)
            }
            Err(_) => {
                self.faults = self.faults.saturating_add(1);
                self.failures = self.failures.saturating_add(1);
                Err(SinkFailed)
            }
        }
    }

    fn faults(&self) -> u64 {
        self.faults
    }
}
