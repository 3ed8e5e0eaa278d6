//! The commands.
#![tactic(auto)]

mod checking;
mod command;
mod conforming;
mod ending;
mod executing;
mod finishing;
mod formatting;
mod generating;
mod laws;
mod linking;
mod ordering;
mod projecting;
mod replaying;
mod resuming;
mod running;
mod sources;
mod status;
mod typing;

pub use command::{alone, chor};
pub use command_words::{Command, Options, Words, read_words};
pub use laws::what_follows;
pub use status::Status;
