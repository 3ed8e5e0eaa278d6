//! Replays of events files on accepted sources.
#![tactic(auto)]

mod events;
mod laws;
mod replaying;

pub use events::accepted_events;
pub use laws::{names_are_words, one_answer, runs_conform, runs_end_together};
pub use replaying::{names_of, replay_accepted};
