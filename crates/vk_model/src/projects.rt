use crate::builders::Builder;
use vk_base::{FeatureName, List, Text, TreePath, TripletName};

/// What the words say of a project.
#[derive(Drop)]
pub struct Project {
    /// The folder with the root manifest.
    pub folder: TreePath,
    /// The triplet that is built for.
    pub target: TripletName,
    /// The triplet of the machine that builds.
    pub host: TripletName,
    /// The features of the root that are wanted.
    pub features: List<FeatureName>,
    /// Whether the root's default features are wanted.
    pub defaults: bool,
    /// Folders of ports that stand before every registry.
    pub overlay_ports: List<TreePath>,
    /// Folders of triplet files.
    pub overlay_triplets: List<TreePath>,
    /// How many requirements may be made, 1 to 2,000,000.
    pub max_facts: u32,
    /// How many bytes a port's folder, and all packages together, may have, 1 to 536,870,912.
    pub max_bytes: u64,
    /// Who builds.
    pub builder: Builder,
}

/// Where packages are installed and kept.
#[derive(Drop)]
pub struct Store {
    /// The folder that packages are installed into.
    pub installed: TreePath,
    /// The folder that built packages are kept in, to be used again.
    pub cache: TreePath,
    /// The name of the agent that builds.
    pub agent: Text,
    /// How many bytes a port's folder, and all packages together, may have, 1 to 536,870,912.
    pub max_bytes: u64,
}
