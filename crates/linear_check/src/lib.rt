//! Linear files: each start of a channel is ordered after the start before it.
#![tactic(auto)]

mod calls;
mod channels;
mod checking;
mod class;
mod greatest;
mod group;
mod heard;
mod sets;
mod steps;
mod walks;

pub use checking::{check_linear, first_unordered};
pub use class::{check_linearity, first_fault};
