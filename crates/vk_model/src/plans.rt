use crate::earlies::Early;
use crate::faults::Fault;
use crate::reasons::Reason;
use vk_base::{FeatureName, Instance, List};
use vk_version::Version;

/// What is built: an instance at a version.
#[derive(Drop)]
pub struct Item {
    /// The port, for a triplet.
    pub inst: Instance,
    /// Its version.
    pub version: Version,
    /// The line of the reason that chose the version, counted from 1.
    pub line: u32,
    /// Its features, `core` first, then the others in byte order.
    pub features: List<FeatureName>,
    /// The places in the plan of what it depends on, counted from 0.
    pub needs: List<u32>,
}

/// What is built, in the order of instances. Needs are places in this list.
#[derive(Drop)]
pub struct PlanSet {
    pub items: List<Item>,
}

/// What is built, each item behind all that it depends on.
#[derive(Drop)]
pub struct Plan {
    pub items: List<Item>,
}

/// What a project comes to.
#[derive(Drop)]
pub enum Outcome {
    /// A plan, with the reasons for it.
    Planned(Plan, List<Reason>),
    /// Why there is none, with the reasons up to there.
    Refused(List<Fault>, List<Reason>),
    /// What is wrong with the files that are read before any port.
    Early(Early),
}
