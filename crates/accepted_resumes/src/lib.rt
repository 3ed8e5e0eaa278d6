//! Runs of accepted sources that go on after the events of a file.
#![tactic(auto)]

mod resuming;
mod telling;

pub use resuming::resume_accepted;
