//! Endpoint files: from bytes to endpoint programs without faults.
#![tactic(auto)]

mod check;
mod programs;

pub use programs::read_programs;
