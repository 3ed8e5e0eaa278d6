//! The text of events.
#![tactic(auto)]

mod book;
mod closing;
mod line;
mod lines;

pub use book::Book;
pub use closing::print_stuck;
pub use line::print_event;
pub use lines::{Lines, print_events};
