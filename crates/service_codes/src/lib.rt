//! The codes of services: for each service role of a channel the least code above the codes after
//! all starts of the channel.
#![tactic(auto)]

mod all;
mod fault;
mod served;
mod service;
mod start;
mod starts;

pub use all::services;
pub use fault::ServiceFault;
pub use starts::{StartNode, Started, all_starts, is_started, starts_of};
