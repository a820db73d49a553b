//! Bytes sent to a sink, call by call.
ghost use Rattle.vk_spec.specs.Sinks.{Sends};
ghost use Rattle.vk_tree.specs.Answers.{sent_answer};

use crate::sinks::Sink;

/// Why bytes weren't taken whole.
#[derive(Clone, Copy, Debug, PartialEq, Eq)]
pub enum OutStop {
    /// A call of the sink failed.
    Failed,
    /// The sink took nothing more.
    Nothing {
        /// How many of the bytes it had taken.
        at: u64,
    },
}

/// Puts bytes into a sink, call by call, until all are taken. It stops, and answers why, only
/// where the sink's count of faults may have increased; where the count rose, it never answers
/// `Ok`. Takes no memory.
pub fn send<S: Sink>(sink: &mut S, bytes: &[u8]) -> Result<(), OutStop>
    ensures { Sends bytes.now (sent_answer result) (S.state sink.old) (S.state sink.new) }
{
    let mut rest = bytes;
    while !rest.is_empty() {
        let Ok(count) = sink.put(rest) else {
            return Err(OutStop::Failed);
        };
        if count == 0 {
            let at = (bytes.len() - rest.len()) as u64;
            return Err(OutStop::Nothing { at });
        }
        let (_, after) = rest.split_at(count);
        rest = after;
    }
    Ok(())
}
