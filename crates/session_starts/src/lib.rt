//! Starts of sessions: the processes that join, and new ones for service roles.
#![tactic(auto)]

mod joining;
mod services;
mod start;

pub use start::start_session;
