//! The types that readers, resolution and reports share: a manifest as it was read, the project
//! that the words name, what a plan is made under, what is given of a port or wrong with it, facts
//! with their causes, fault lines, and what a project comes to.
//! They promise upwards what their views say: plain data, nothing hidden.
#![tactic(auto)]

mod builders;
mod cuts;
mod earlies;
mod fact_orders;
mod facts;
mod faults;
pub mod lines;
mod manifests;
mod plan_lines;
mod plans;
mod port_features;
mod projects;
mod reason_lines;
mod reasons;
mod retold;
mod settings;
mod wrongs;

pub use builders::{Builder, BuilderFault, BuilderText};
pub use cuts::cut;
pub use earlies::Early;
pub use facts::{Fact, Who};
pub use faults::Fault;
pub use manifests::{Dependency, Feature, FeatureUse, Manifest, Override};
pub use plans::{Item, Outcome, Plan, PlanSet};
pub use port_features::PortFeatures;
pub use projects::{Project, Store};
pub use reasons::{Cause, Closure, Reason};
pub use retold::told_as;
pub use settings::Setting;
pub use wrongs::{Field, Given, Wrong};
