//! Readings of which one fault alone is told.
ghost use Rattle.std.specs.Prelude.{Result};
ghost use Rattle.vk_spec.specs.Reading.{Gives};
ghost use Rattle.vk_base.specs.Stops.{fault_in};
ghost use Rattle.vk_model.specs.Retold.{told_as};

use vk_base::Unread;

/// What was read, and otherwise this fault, whatever the fault was.
pub fn told_as<T, F: Drop, G: Drop>(fault: G, read: Result<T, Unread<F>>) -> Result<T, Unread<G>>
    ensures { (reads : Result T F) → Gives (λ x. x) fault_in read reads
        → Gives (λ x. x) fault_in result (told_as fault reads) }
{
    match read {
        Ok(value) => Ok(value),
        Err(Unread::Fault(_)) => Err(Unread::Fault(fault)),
        Err(Unread::Memory(memory)) => Err(Unread::Memory(memory)),
    }
}
