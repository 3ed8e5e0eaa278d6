//! A choreography of as many rounds as are asked for: a large input that is accepted.
#![tactic(auto)]

mod declared;
mod file;
mod rounds;
mod words;

pub use file::generate;
