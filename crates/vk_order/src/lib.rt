//! The order of a plan: each item behind all that it depends on, or the cycle that there is. It
//! promises upwards that the order is the one that heights give, and that a cycle is told exactly
//! where no order is.
#![tactic(auto)]

mod components;
mod cycles;
mod moves;
mod orders;
mod peeling;
mod users;
mod ways;

pub use orders::{OrderFault, plan_order};
