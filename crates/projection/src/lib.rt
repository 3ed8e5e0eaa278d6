//! What it is for endpoint programs to be the projection of a source, which branches and starts
//! can't be merged, and what holds of both.
//!
//! Definitions, laws and worked examples: `file_codes::project` makes the projection.
#![tactic(auto)]

pub mod examples;
pub mod laws;
