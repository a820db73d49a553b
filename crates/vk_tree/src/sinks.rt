//! A sink of bytes, by what is known of it.
ghost use Rattle.std.specs.Prelude.{◌≡◌};
ghost use Rattle.std.specs.Result.{result_ok};
ghost use Rattle.vk_spec.specs.Sinks.{SinkState, Puts};

/// A call of a sink that failed, and took nothing.
#[derive(Clone, Copy, Debug, PartialEq, Eq)]
pub struct SinkFailed;

/// Where bytes go to: a file, a stream, or memory.
pub trait Sink {
    /// What is known of it: what it took, how many calls failed or took nothing of a piece that
    /// isn't empty, and how many more bytes it is sure to take.
    ghost state: { Self → SinkState };

    /// Takes the first part of the piece, and answers its length in bytes. It fails, or takes
    /// nothing of a piece that isn't empty, only where its count of faults may have increased; any
    /// other answer leaves the count.
    fn put(&mut self, piece: &[u8]) -> Result<usize, SinkFailed>
        ensures { Puts piece.now (result_ok result) (state self.old) (state self.new) };

    /// Its count of faults, which never falls.
    fn faults(&self) -> u64
        ensures { result ≡ (state self.now).faults };
}
