//! The sets of states of a protocol that a role can't tell apart, and the acts that lead from one to
//! another.
#![tactic(auto)]

mod act;
mod graph;
mod marks;
mod moves;
mod numbering;
mod order;
mod sight;
mod starts;
mod table;

pub use act::{Act, same_payload};
pub use marks::{has, has_two, meets, no_marks, put};
pub use sight::{Sight, sight_of};
pub use table::{Arm, Row};
