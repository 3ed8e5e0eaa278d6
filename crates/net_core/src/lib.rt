//! Networks of endpoint programs.
#![tactic(auto)]

mod acts;
mod answer;
mod candidates;
mod few;
mod follow_starts;
mod following;
mod joiners;
mod network;
mod parts;
mod process_numbers;
mod schedule;
mod scheduler;
mod standing;
mod telling;

pub use answer::{Followed, Picked, Step};
pub use network::Network;
pub use process_numbers::are_few;
