//! The outside: shelves of files, sinks for what is written, and gates for workers.
//!
//! A program that is generic over [`Shelf`], [`Sink`] and [`Gate`] runs over the real machine with
//! [`DiskShelf`] and [`OutSink`], and in a test with [`MemoryShelf`] and [`MemorySink`], whose
//! contracts say what each call answers.
#![tactic(auto)]

mod failed;
mod gate;
mod memory;
mod outside;
mod real;

pub use gate::OpenGate;
pub use memory::{MemoryShelf, MemorySink};
pub use outside::{Fetched, Gate, Put, Shelf, Sink};
pub use real::{DiskShelf, OutSink};
