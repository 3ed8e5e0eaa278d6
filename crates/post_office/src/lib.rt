//! The post office: what the processes of a network share.
#![tactic(auto)]

mod desk;
mod entries;
mod hosts;
mod ledger;
mod office;
mod parts;
mod post;
mod queues;

pub use hosts::known_hosts;
pub use ledger::{Ledger, append};
pub use office::Office;
pub use parts::channel_named;
pub use post::{Post, Received, Sent, Standing, Started};
pub use queues::Queues;
