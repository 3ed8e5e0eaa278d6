//! Replays of events files.
#![tactic(auto)]

mod closing;
mod events;
mod file;
mod laws;
mod lines;
mod reading;

pub use closing::judge;
pub use events::replayed_events;
pub use file::replay_file;
pub use laws::one_answer;
pub use lines::has_few_lines;
