//! Endpoint programs made of what is written.
#![tactic(auto)]

mod nodes;
mod table;
mod units;
mod whole;

pub use whole::endpoints_of;
