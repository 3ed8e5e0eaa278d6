//! Offices that are told the events of a run, one by one.
#![tactic(auto)]

mod making;
mod starting;
mod told;

pub use told::office_of;
