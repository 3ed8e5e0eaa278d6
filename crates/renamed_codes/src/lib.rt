//! Codes whose sessions have other names.
#![tactic(auto)]

mod exchange;
mod node;
mod walk;

pub use exchange::Exchange;
pub use walk::rename;
