//! Sources that are accepted, with their projection, and their runs.
#![tactic(auto)]

mod accepted;
mod laws;
mod running;
mod running_by;
mod streaming;
mod telling;

pub use accepted::{Accepted, accept};
pub use laws::capacities_leave_room;
pub use running::{Outcome, run_accepted};
pub use running_by::run_accepted_by;
pub use streaming::{StreamedRun, run_accepted_to, tell_accepted_to};
pub use telling::tell_accepted;
