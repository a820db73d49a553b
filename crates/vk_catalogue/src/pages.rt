use std::rc::Rc;
use vk_base::{List, PortName};
use vk_model::{Given, Manifest, Wrong};
use vk_version::Version;

/// A version of a port, and its manifest, or what is wrong with that.
#[derive(Drop)]
pub struct PageRow {
    /// The version.
    pub version: Version,
    /// Its manifest, or what is wrong with it.
    pub manifest: Result<Rc<Manifest>, Wrong>,
}

/// What a catalogue tells of a port.
#[derive(Drop)]
pub struct Page {
    /// The port.
    pub port: PortName,
    /// Its given version, or why it has none.
    pub given: Result<Given, Wrong>,
    /// Its versions. No two have the same text and port-version.
    pub rows: List<PageRow>,
}
