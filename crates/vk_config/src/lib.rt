//! A project's configuration: its registries, with the ports that each serves, and its overlays. It
//! promises upwards that a file is the configuration that its definition gives, or the first fault
//! with its place, and that a port goes to exactly the registry whose pattern takes it best.
#![tactic(auto)]

mod config_files;
mod configs;
mod embedding;
mod first_places;
mod laws;
mod pattern_indexes;
mod patterns;
mod registries;
mod serving;

pub use config_files::read_config;
pub use configs::{Config, Embedded};
pub use embedding::{embedded, embedded_in};
pub use laws::fault_places;
pub use patterns::Pattern;
pub use registries::{Registry, Source};
pub use serving::{registry_of, serving_rule};
