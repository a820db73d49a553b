use std::rc::Rc;
use vk_base::{List, TreePath};
use vk_config::Config;
use vk_model::Manifest;
use vk_root::Overrides;

/// A folder that stands before every registry.
#[derive(Drop)]
pub enum Overlay {
    /// It is itself a port: the folder, and its manifest.
    Port(TreePath, Rc<Manifest>),
    /// It holds ports, each in a folder of its name.
    Ports(TreePath),
}

/// What is known of a project before any port is looked at.
#[derive(Drop)]
pub struct Layout {
    /// The project's folder.
    pub folder: TreePath,
    /// Its configuration.
    pub config: Config,
    /// Its overlays: those that the words name, then those of the configuration.
    pub overlays: List<Overlay>,
    /// The versions that the root manifest sets.
    pub overrides: Overrides,
}
