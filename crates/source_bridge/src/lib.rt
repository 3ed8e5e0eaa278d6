//! The grammar of sources as data and the relations of source_grammar say the same.
#![tactic(auto)]

mod laws;

pub use laws::{same_files, same_sources};
