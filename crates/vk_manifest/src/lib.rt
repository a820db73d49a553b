//! Manifests, `vcpkg.json`: what their bytes mean, or the first fault with its place. It promises
//! upwards that a reading is exactly the definition, which reads like the manual.
#![tactic(auto)]

mod dependencies;
mod features;
mod laws;
mod manifests;
mod overrides;
mod places;

pub use laws::{fault_places, manifest_names, unknown_members};
pub use manifests::{read_manifest, read_manifest_in};
