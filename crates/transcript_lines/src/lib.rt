//! The lines of an events file.
#![tactic(auto)]

mod last;
mod laws;
mod lines;
mod whole;

pub use last::{Last, last_of};
pub use laws::{one_history, transcript_splits};
pub use lines::first_line;
pub use whole::whole_lines;
