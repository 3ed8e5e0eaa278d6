//! The grammar of sources as data, and what holds of all tokens.
#![tactic(auto)]

mod laws;

pub use laws::{
    never_refused, one_fault, one_or_the_other, one_source, same_statements, same_steps,
};
