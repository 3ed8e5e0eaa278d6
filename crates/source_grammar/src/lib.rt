//! Grammars of tokens in which the next token tells what comes: how their parts are put together, and
//! where they stop; the grammar of sources, and what holds of all tokens.
#![tactic(auto)]

mod laws;

pub use laws::{never_refused, one_fault, one_or_the_other, one_source, one_way};
