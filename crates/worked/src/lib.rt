//! Worked endpoint programs, for tests: texts alone.
#![tactic(auto)]

pub mod endpoints;
