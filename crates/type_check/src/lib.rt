//! Types: the first fault of a file against its protocols, its holders of roles and its sorts.
#![tactic(auto)]

mod bodies;
mod checking;
mod heads;
mod typed;

pub use checking::{check_types, first_type_fault};
pub use typed::Typed;
