//! What a root manifest sets for the ports below it: the versions that it overrides, and the
//! instances that it turns off, with what a manifest has under a feature's name. It promises upwards
//! that an override is found by its port without a scan, and that the off list has exactly the
//! instances that the root turns off, in order.
#![tactic(auto)]

mod asked_features;
mod instance_sets;
mod manifests;
mod off_lists;
mod overrides;
mod requirers;
mod roots;

pub use instance_sets::set_of;
pub use manifests::{defaults_of, dependencies_of, feature_of};
pub use off_lists::off_list;
pub use overrides::Overrides;
pub use requirers::Requirer;
pub use roots::Root;
