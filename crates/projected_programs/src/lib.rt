//! Bytes are endpoint programs or violate a rule; programs that are read from the same bytes are the
//! same, and tell each event of their runs; and what the endpoint programs of a source do, and those
//! that are read from their text.
#![tactic(auto)]

mod copies;
mod same_bytes;
mod telling;
mod texts;

ghost use Rattle.std.specs.Prelude.{◌≤◌, ◌^◌, ℕ, List, length};
ghost use Rattle.chor_host.specs.Tables.{functions_of};
ghost use Rattle.endpoint_code.specs.declared.endpoints.Endpoints.{Endpoints};
ghost use Rattle.endpoint_check.specs.Programs.{AreProgramsOf};
ghost use Rattle.projected_programs.specs.Sizes.{AreLiteralsSized};
ghost use Rattle.projected_programs.specs.Laws.{AreProgramsOrRefused, RunsAreTold, ShortRunsAreTold, ProjectedTextIsTaken, ProjectedTextRuns, SourceRunsAreTold};
ghost use Rattle.projected_programs.specs.LawsBy.{ProjectedTextRunsByWorkers};

use chor_host::HostTable;
pub use copies::{copies_are_faultless, copies_ask_known};
pub use same_bytes::{programs_of_bytes_are_same, transcripts_of_bytes_agree};
pub use telling::{all_told, few_told};
pub use texts::text_is_of_programs;

/// All bytes of a file that is not too long are the text of endpoint programs, or violate a rule of
/// endpoint files.
pub fn accepted_or_refused()
    ensures { (hosts : List (List ℕ)) (bytes : List ℕ) → length bytes ≤ 2 ^ 24 → AreProgramsOrRefused hosts bytes }
{}

/// In the bodies of endpoint programs that bytes are the text of, each literal number has 64 bits with
/// sign.
pub fn literals_sized()
    ensures { (hosts : List (List ℕ)) (bytes : List ℕ) (e : Endpoints) → AreProgramsOf hosts bytes e → AreLiteralsSized e }
{}

/// Endpoint programs that bytes are the text of have a name, a text or a number of its size for all
/// that the events of their runs say, where they may ask these host functions.
pub fn runs_told(_hosts: &HostTable)
    ensures all { (bytes : List ℕ) → RunsAreTold (functions_of _hosts.now) bytes }
    ensures short { (bytes : List ℕ) → ShortRunsAreTold (functions_of _hosts.now) bytes }
{}

/// The text of the endpoint programs that are the projection of an accepted source is never refused
/// as an endpoint file.
pub fn projected_text_is_taken()
    ensures { ProjectedTextIsTaken }
{
    writable_sources::projection_is_writable();
    accepted_files::projection_is_faultless();
    accepted_files::projection_asks_known();
    endpoint_laws::text_is_taken();
}

/// What is read from that text has, under a capacity that leaves room in an empty queue, no transcript but
/// that of the source's own run: first in, first out, each session by its protocol, and never stuck.
pub fn projected_text_runs()
    ensures { ProjectedTextRuns }
{
    writable_sources::projection_is_writable();
    accepted_files::projection_is_faultless();
    endpoint_laws::text_reads_back();
    crate::copies_are_faultless();
    program_runs::transcripts_agree();
    accepted_files::asked_functions_answer();
    accepted_files::projection_is_above();
    accepted_files::scheduled_runs_are_runs();
}

/// So it is where workers make the run: each transcript is that of a run of the choreography.
pub fn projected_text_runs_by_workers()
    ensures { ProjectedTextRunsByWorkers }
{
    writable_sources::projection_is_writable();
    accepted_files::projection_is_faultless();
    endpoint_laws::text_reads_back();
    crate::copies_are_faultless();
    program_runs::transcripts_by_workers_agree();
    accepted_files::asked_functions_answer();
    accepted_files::projection_is_above();
    accepted_files::closed_runs_are_runs();
}

/// The events of a run of an accepted source's choreography can be told by lines, where there are
/// fewer than 2^27 of them. So there is an events file of each such run.
pub fn source_runs_are_told()
    ensures { SourceRunsAreTold }
{
    writable_sources::projection_is_writable();
    accepted_files::projection_is_faultless();
    accepted_files::projection_is_above();
    accepted_files::checked_runs();
    crate::few_told();
}
