//! Who holds which role of a session, from the start of the session on and past each delegation.
#![tactic(auto)]

mod fault;
mod held;
mod owners;

pub use fault::OwnFault;
pub use held::{Held, all_differ};
pub use owners::Owners;
