use crate::manifests::Manifest;
use vk_base::{FeatureName, Instance, List};
use vk_triplet::Triplet;

/// What a plan is made under.
#[derive(Drop)]
pub struct Setting {
    /// The root manifest.
    pub root: Manifest,
    /// The triplet that is built for.
    pub target: Triplet,
    /// The triplet of the machine that builds.
    pub host: Triplet,
    /// The features of the root that are wanted.
    pub features: List<FeatureName>,
    /// Whether the root's default features are wanted.
    pub defaults: bool,
    /// The instances whose default features are off.
    pub off: List<Instance>,
    /// How many requirements may be made, 1 to 2,000,000.
    pub max_facts: u32,
}
