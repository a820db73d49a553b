use crate::facts::Fact;
use crate::faults::Fault;
use vk_base::List;

/// Why a fact stands, by the lines of the reasons from which it follows, counted from 1.
#[derive(Clone, Copy, Debug, PartialEq, Eq)]
pub enum Cause {
    /// A need of the root: `core`, a feature that the words name, or the default features.
    Root,
    /// The floor of a needed port's baseline.
    Baseline(u32),
    /// The floor of a needed port's override.
    Override(u32),
    /// The floor of a needed port's overlay.
    Overlay(u32),
    /// A minimum that a manifest asks for.
    Minimum(u32),
    /// A need that a manifest asks for.
    From(u32),
    /// A visit, from its need and its floor.
    Both(u32, u32),
}

/// A fact with its cause.
#[derive(Drop)]
pub struct Reason {
    pub fact: Fact,
    pub cause: Cause,
}

/// All that a project requires, in order, with what is wrong with the files that it needs.
#[derive(Drop)]
pub struct Closure {
    /// The least list of requirements in its order, each with its cause.
    pub reasons: List<Reason>,
    /// The lines of the first phase, in the order in which they are printed.
    pub faults: List<Fault>,
}
