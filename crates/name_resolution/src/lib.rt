//! Names: each is declared, once, and what is listed fits what is declared.
#![tactic(auto)]

mod bodies;
mod channels;
mod declared;
mod functions;
mod index;
mod lists;
mod named;
mod procedures;
mod protocols;
mod resolving;
mod scope;
mod set;

pub use index::Index;
pub use named::HasName;
pub use resolving::resolve;
