ghost use Rattle.std.specs.Prelude.{◌≡◌};

use crate::port_features::PortFeatures;
use std::alloc::AllocError;
use vk_base::{FeatureName, List, PortName};
use vk_expr::Expr;
use vk_version::{Ask, Version};

/// A feature that a list names, where its condition holds.
#[derive(Drop)]
pub struct FeatureUse {
    /// The feature.
    pub name: FeatureName,
    /// Where it is wanted.
    pub platform: Expr,
}

/// What a manifest wants of another port.
#[derive(Drop)]
pub struct Dependency {
    /// The other port.
    pub name: PortName,
    /// Whether its default features are wanted.
    pub defaults: bool,
    /// The features that are wanted besides.
    pub features: List<FeatureUse>,
    /// Whether it is wanted for the host, and not for the platform of the port that wants it.
    pub host: bool,
    /// Where it is wanted.
    pub platform: Expr,
    /// The version that it has to have at least.
    pub minimum: Option<Ask>,
}

/// A feature of a port.
#[derive(Drop)]
pub struct Feature {
    /// Its name.
    pub name: FeatureName,
    /// What it wants.
    pub dependencies: List<Dependency>,
    /// Where it can be built.
    pub supports: Expr,
}

/// The version that a root manifest sets for a port.
#[derive(Drop)]
pub struct Override {
    /// The port.
    pub name: PortName,
    /// The version that it gets.
    pub ask: Ask,
}

impl Clone for Override {
    ghost is_clone = { λ x y. y ≡ x };

    fn clone(&self) -> Result<Override, AllocError> {
        Ok(Override {
            name: self.name.clone()?,
            ask: self.ask.clone()?,
        })
    }
}

/// A manifest: of a port, or of the root, which may lack name and version.
#[derive(Drop)]
pub struct Manifest {
    /// The port's name.
    pub name: Option<PortName>,
    /// Its version.
    pub version: Option<Version>,
    /// Where it can be built.
    pub supports: Expr,
    /// What it wants, whatever its features are.
    pub dependencies: List<Dependency>,
    /// The features that it has by default.
    pub default_features: List<FeatureUse>,
    /// Its features.
    pub features: PortFeatures,
    /// The versions that a root sets; a port has none.
    pub overrides: List<Override>,
}
