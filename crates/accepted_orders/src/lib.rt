//! The order of a run's events that all its rearrangements share, for accepted sources.
#![tactic(auto)]

mod causes_text;
mod fault;
mod laws;
mod numbers;
mod ordering;
mod past_text;
mod relation;

pub use fault::OrderFault;
pub use laws::{
    concurrent_are_reversed, extensions_are_rearrangements, pasts_are_replayed, pasts_are_runs,
    rearrangements_have_same_events, rearrangements_share_order,
};
pub use ordering::order_accepted;
pub use relation::Relation;
