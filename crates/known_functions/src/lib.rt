//! The names of host functions.
#![tactic(auto)]

mod names;

pub use names::host_names;
