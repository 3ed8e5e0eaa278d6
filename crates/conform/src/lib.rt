//! Logs of events, whatever made them, judged by the protocols of a file, role by role.
#![tactic(auto)]

mod deed;
mod fault;
mod following;
mod judging;
mod laws;
mod moves;
mod places;
mod progress;
mod session;
mod types;

pub use fault::ConformFault;
pub use judging::{closed, conform};
pub use laws::{astray_once, prefixes_conform, views_are_read};
pub use progress::Progress;
