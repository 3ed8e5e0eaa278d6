//! One process of an endpoint program.
#![tactic(auto)]

mod acts;
mod asking;
mod head;
mod locals;
mod machine;
mod same;
mod sessions;

pub use head::Head;
pub use machine::Machine;
pub use sessions::Binding;
