//! Runs of endpoint programs by the pick rule, from their first state.
#![tactic(auto)]

mod going;
mod parts;
mod run;
mod stepwise;

pub use parts::{Run, Schedule};
pub use run::{Closed, Ran, run_endpoints, run_within};
pub use stepwise::run_stepwise;
