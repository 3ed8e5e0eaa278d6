//! Runs that go on after given events.
#![tactic(auto)]

mod following;
mod going;
mod laws;
mod resuming;

pub use laws::fronts_are_resumed;
pub use resuming::{Plan, resume};
