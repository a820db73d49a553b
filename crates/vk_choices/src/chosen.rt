//! Choices, and what is told in place of them.
ghost use Rattle.std.specs.Prelude.{◌≡◌, bytes_eq, option_map};
ghost use Rattle.std.specs.Map.{lookup};

use indexmap::IndexMap;
use vk_base::{List, PortName};
use vk_model::Fault;
use vk_version::Version;

/// The version of a port.
#[derive(Drop)]
pub struct Choice {
    pub version: Version,
    /// The line of the floor that is the version, counted from 1.
    pub line: u32,
}

/// A version for each port that has a floor, in the order of ports.
#[derive(Drop)]
pub struct Choices {
    pub ports: IndexMap<PortName, Choice>,
}

impl Choices {
    /// The choice of a port; `None` exactly where it has none. Takes no memory.
    pub fn of(&self, port: &PortName) -> Option<&Choice>
        ensures { option_map (λ c. c.now) result
            ≡ lookup (bytes_eq port.now) self.now.ports.entries }
    {
        self.ports.get(port)
    }
}

/// Why a project has no choices.
#[derive(Drop)]
pub enum ChooseFault {
    /// The lines of the ports in conflict, in the order in which they are printed.
    Conflicts(List<Fault>),
}
