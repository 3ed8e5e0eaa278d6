//! Protocols as global types: the states of a protocol, its paths, and what it is for protocols to be without fault.
#![tactic(auto)]

mod check;
mod states;

pub use check::check_protocols;
pub use states::{is_named, step_at};
