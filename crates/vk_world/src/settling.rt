//! What a reader refuses is an answer of the world.
ghost use Rattle.std.specs.Prelude.{◌≡◌};
ghost use Rattle.vk_world.specs.Learning.{settled, unanswered};

use vk_base::{Outage, Stop};

// What a stop answers: a refusal is an answer.
fn unanswered<X, F>(stop: Stop<F>) -> Result<Result<X, F>, Outage>
    ensures { result ≡ unanswered stop }
{
    match stop {
        Stop::Fault(refusal) => Ok(Err(refusal)),
        Stop::Failed => Err(Outage::Failed),
        Stop::Memory(memory) => Err(Outage::from(memory)),
    }
}

/// A value or a refusal; the tree's failure and out of memory are no answer.
pub fn settle<X, F>(answer: Result<X, Stop<F>>) -> Result<Result<X, F>, Outage>
    ensures { result ≡ settled answer }
{
    match answer {
        Ok(value) => Ok(Ok(value)),
        Err(stop) => unanswered(stop),
    }
}
