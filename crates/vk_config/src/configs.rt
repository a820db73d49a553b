//! A configuration as a value.
ghost use Rattle.std.specs.Prelude.{◌≡◌, map};
ghost use Rattle.vk_config.specs.Configs.{Pattern};
ghost use Rattle.vk_config.specs.RegistryViews.{registry_view};
ghost use Rattle.vk_config.specs.FirstPlaces.{first_with};
ghost use Rattle.vk_config.specs.IndexViews.{index_view};

use crate::pattern_indexes::PatternIndex;
use crate::registries::{Registry, Source};
use vk_base::{List, TreePath};

/// What a project says of registries and overlays.
#[derive(Drop)]
pub struct Config {
    /// The registries with patterns, in their order.
    pub registries: List<Registry>,
    /// Where a port comes from that no pattern takes.
    pub default: Option<Source>,
    /// Folders of ports that stand before every registry, from the project's folder on.
    pub overlay_ports: List<TreePath>,
    /// Folders of triplet files, from the project's folder on.
    pub overlay_triplets: List<TreePath>,
    // Of the registries.
    pub(crate) index: PatternIndex,
    ghost indexed: { (pattern : Pattern)
        → index_view index pattern ≡ first_with (map registry_view registries) pattern },
}

/// What a root manifest has of a configuration.
#[derive(Drop)]
pub enum Embedded {
    /// None.
    Nothing,
    /// One, under one of its two keys.
    One(Config),
    /// Both keys are there.
    Two,
}
