use crate::facts::Who;
use crate::wrongs::Field;
use vk_base::{FeatureName, Instance, List, PortName, Text, TreePath};
use vk_json::Why;
use vk_version::{Ask, Version};

/// A line that says why there is no plan. The lines that it cites are those of reasons, counted
/// from 1.
#[derive(Drop)]
pub enum Fault {
    /// No registry serves a needed port.
    NoRegistry {
        port: PortName,
        line: u32,
    },
    /// The baseline of a needed port's registry has no entry for it.
    NoBaseline {
        port: PortName,
        line: u32,
    },
    /// A needed file isn't as it has to be: where in it, a JSON Pointer (RFC 6901), and why.
    BadFile {
        path: TreePath,
        place: Text,
        why: Why,
        line: u32,
    },
    /// A port's table lacks a version that is asked for.
    NoVersion {
        port: PortName,
        ask: Ask,
        line: u32,
    },
    /// A manifest isn't what the table says of it: what the table has, and what it has.
    Disagrees {
        path: TreePath,
        field: Field,
        table: Text,
        manifest: Text,
        line: u32,
    },
    /// No floor of a port is at or above all others: the first two that no other is above.
    Conflict {
        port: PortName,
        first: Version,
        first_line: u32,
        second: Version,
        second_line: u32,
    },
    /// The chosen manifest lacks a needed feature; the root has no version.
    NoFeature {
        who: Who,
        feature: FeatureName,
        version: Option<Version>,
        line: u32,
    },
    /// What is needed can't be built for its triplet; the root has no version.
    Unsupported {
        who: Who,
        feature: FeatureName,
        version: Option<Version>,
        line: u32,
    },
    /// Instances that depend on each other in a circle: each on the next, the last on the first.
    Cycle(List<Instance>),
}
