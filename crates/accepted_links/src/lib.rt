//! Linking: endpoint programs written by hand take the places of units of an accepted source's
//! programs, and the result runs as the source does.
#![tactic(auto)]

mod laws;
mod line;
mod linking;

pub use laws::{linked_has_no_fault, one_link_fault};
pub use line::refusal_line;
pub use linking::link_accepted;
