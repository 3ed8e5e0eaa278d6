//! Files of events, whatever made them, judged by the protocols of a source, role by role.
#![tactic(auto)]

mod laws;
mod log;
mod reading;

pub use laws::{one_answer, transcripts_conform};
pub use log::conform_log;
