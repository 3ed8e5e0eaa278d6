//! Texts of messages up to their loads, which are kept where they were written lately.
#![tactic(auto)]

mod phrase;
mod phrases;

pub use phrase::{Phrase, Verb};
pub use phrases::Phrases;
