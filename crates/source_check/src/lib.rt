//! Reading a source, and judging it class of rules by class.
#![tactic(auto)]

mod rules;
mod source;

pub use rules::{Class, Rules};
pub use source::{check, read, types_text};
