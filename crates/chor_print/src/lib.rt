//! The canonical text of sources.
#![tactic(auto)]

mod block;
mod canonical;
mod piece;
mod statement;
mod unit;

pub use canonical::print;
