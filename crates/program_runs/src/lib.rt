//! Transcripts of endpoint programs, which are the same for programs with the same units; and the
//! runs of a source, which are the same for files that are one source.
#![tactic(auto)]

mod closing;
mod history;
mod laws;
mod run;
mod streaming;
mod telling;

pub use closing::write_closing;
pub use history::tell_history;
pub use laws::{
    same_runs_are_written_alike, sources_run_alike, transcripts_agree, transcripts_by_workers_agree,
};
pub use run::{Executed, execute};
pub use streaming::{ExecutedTo, execute_to};
pub use telling::{Told, tell_run};
