//! The text of endpoint programs.
#![tactic(auto)]

mod arms;
mod code;
mod laws;
mod print;
mod words;

pub use laws::labels_ascend;
pub use print::print_endpoints;
