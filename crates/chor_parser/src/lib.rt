//! Reads sources: from tokens to files.
#![tactic(auto)]

mod source;

pub use name_resolution::resolve;
pub use source::parse;
pub use source_grammar::{never_refused, one_fault, one_or_the_other, one_source, one_way};
