//! Replays of runs: whether events are a run of a network.
#![tactic(auto)]

mod answer;
mod replaying;

pub use answer::{ReplayFault, Replayed};
pub use replaying::replay;
