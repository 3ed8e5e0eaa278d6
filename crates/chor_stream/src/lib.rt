//! A stream of a run's entries to a printer, which writes their lines while the run is made.
//!
//! The end that pushes goes with the run, the other one stays with the thread that prints. A full ring
//! stops nobody: what finds no room is written from the run itself once it is made.
#![tactic(auto)]

mod drain;
mod ends;
mod finish;
mod opened;
mod push;
mod ring;
mod writing;

pub use drain::Drained;
pub use ends::{Feed, Numbered, Printer};
pub use finish::Finished;
pub use opened::stream;
pub use ring::Ring;
