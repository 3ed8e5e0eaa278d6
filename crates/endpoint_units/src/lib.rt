//! Reads endpoint files whole: from tokens to their units.
#![tactic(auto)]

mod file;
mod parts;
mod unit;
mod word;

pub use file::read_endpoints;
