//! What is known at a statement, as a value, and the judgement of one statement or tail by it.
#![tactic(auto)]

mod allowed;
mod calls;
mod declared;
mod judging;
mod known;
mod locals;
mod messages;
mod sorts;
mod standings;
mod starts;

pub use known::Known;
