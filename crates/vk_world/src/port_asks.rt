//! A port, and what is asked for of it.
ghost use Rattle.std.specs.Prelude.{◌≡◌, IfOk};

use std::alloc::AllocError;
use vk_base::PortName;
use vk_version::Ask;

/// A port, and what is asked for of it. A copy shares the texts of both.
#[derive(PartialEq, Eq, Hash, Drop)]
pub struct PortAsk {
    /// The port.
    pub port: PortName,
    /// What is asked for.
    pub ask: Ask,
}

impl PortAsk {
    /// Both, copied.
    pub fn of(port: &PortName, ask: &Ask) -> Result<PortAsk, AllocError>
        ensures port { IfOk result (λ key. key.port ≡ port.now) }
        ensures ask { IfOk result (λ key. key.ask ≡ ask.now) }
    {
        Ok(PortAsk {
            port: port.clone()?,
            ask: ask.clone()?,
        })
    }
}
