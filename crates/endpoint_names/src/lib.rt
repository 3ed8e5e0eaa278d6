//! Names of endpoint files: what is named is declared, once.
#![tactic(auto)]

mod bodies;
mod bound;
mod check;
mod declared;
mod functions;
mod index;
mod key;
mod places;
mod units;

pub use bodies::line_at;
pub use check::check_names;
