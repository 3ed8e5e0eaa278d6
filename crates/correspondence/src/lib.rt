//! When a choreography that runs and the network of its endpoints correspond, and that each step of one process keeps it.
#![tactic(auto)]

mod laws;
mod offers;

pub use laws::{
    end_together, first_states_correspond, loads_are_taken, never_stuck, runs_agree, steps_agree,
};
pub use offers::above_follows;
