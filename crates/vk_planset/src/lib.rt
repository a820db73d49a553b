//! The planned set: what is built of the chosen versions. It promises upwards that it has an item
//! for each planned instance and nothing else, and that what the plan can't serve is told exactly
//! where there is something.
#![tactic(auto)]

mod items;
mod judging;
mod orders;
mod seats;
mod sets;

pub use sets::{PlanSetFault, plan_set};
