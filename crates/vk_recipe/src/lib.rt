//! Recorded builds, `recorded-build.json`: what the bytes of one mean, and the package that its
//! steps make of a port's folder and the packages of its dependencies.
//! It promises upwards that a reading is exactly the definition, and that what is built, or the
//! first fault, depends on nothing but the item, its folder and its dependencies.
#![tactic(auto)]

mod building;
mod destinations;
mod faults;
mod jobs;
mod laws;
mod package_paths;
mod reading;
mod recipes;
mod sources;

pub use building::build;
pub use faults::RecipeFault;
pub use jobs::{Child, Job};
pub use laws::{fault_places, package_rule, recipe_rule, step_rule};
pub use reading::read_recipe;
pub use recipes::{Action, Recipe, Step};
