//! Guarded procedures: a process that a procedure was passed is named before it is passed on.
#![tactic(auto)]

mod bodies;
mod checking;
mod nodes;
mod unnamed;

pub use checking::{check_guarded, first_unguarded};
