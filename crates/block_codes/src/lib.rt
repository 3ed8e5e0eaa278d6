//! The codes of the processes in scope at each block of a source, and that of one process.
#![tactic(auto)]

mod alone;
mod call;
mod coded;
mod joined;
mod last;
mod node;
mod part;
mod statement;
mod stop;
mod walk;

pub use alone::code_of;
pub use coded::Coded;
pub use stop::Stop;
pub use walk::codes;
