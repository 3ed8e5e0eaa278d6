//! The code of a projection follows its choreography, and its network has the same runs. From a file
//! without faults, in which each process holds the roles that it plays, to the runs of its
//! projection's network, and from the scheduled run of that network to runs of the choreography. The
//! projection of such a file has no fault either, and asks only host functions that are known.
#![tactic(auto)]

mod faultless;
mod following;
mod greatest;
mod held;
mod worked;

ghost use Rattle.accepted_files.specs.AboveProjection.{ProjectionIsAbove, AboveStaysAbove};
ghost use Rattle.accepted_files.specs.LinkedRuns.{LinkedRunsAreRuns};
ghost use Rattle.accepted_files.specs.MoreNames.{RunsAskAlike, ScheduledRunsAskAlike};
ghost use Rattle.accepted_files.specs.Roles.{EverybodyHoldsItsRoles};
ghost use Rattle.accepted_files.specs.Accepted.{CheckedIsProjection, NetworkRunsAreRuns, RunsAreNetworkRuns, NetworkRunsConform, EndedNetworkEnds, NeverStuck};
ghost use Rattle.accepted_files.specs.Closing.{NothingHappens};
ghost use Rattle.accepted_files.specs.Runs.{ScheduledRunsAreRuns};
ghost use Rattle.accepted_files.specs.ClosedRuns.{ClosedRunsAreRuns};

pub use faultless::{asked_functions_answer, projection_asks_known, projection_is_faultless};
pub use following::{
    call_follows, endless_exchange_holds_its_roles, projected_code_follows, projection_never_stuck,
    projection_realizes, projection_runs, service_started_twice_is_a_projection,
};
pub use greatest::{faultless_is_linear, greatest_sets_exist};
pub use held::{codes_are_scoped, services_are_scoped};
pub use worked::service_started_twice_is_checked;

/// In a file without faults of names, protocols and types everybody holds its roles: the processes
/// of main, the parameters of procedures, and the new processes of each start.
pub fn everybody_holds_its_roles()
    ensures { EverybodyHoldsItsRoles }
{}

/// The projection of a file without faults meets all that is asked of a projection.
pub fn checked_is_projection()
    ensures { CheckedIsProjection }
{}

/// The network of the projection of a file without faults has the runs of the file's choreography,
/// and each of its sessions follows its protocol, to an end where each process has ended.
pub fn checked_runs()
    ensures to { NetworkRunsAreRuns }
    ensures back { RunsAreNetworkRuns }
    ensures conform { NetworkRunsConform }
    ensures end { EndedNetworkEnds }
{
    correspondence::runs_agree();
    typed_sources::runs_conform();
}

/// It never gets stuck, where the host functions that the file asks have answers.
pub fn checked_never_stuck()
    ensures { NeverStuck }
{
    correspondence::never_stuck();
}

/// Where no process of a network can step, no event can happen.
pub fn nothing_happens()
    ensures { NothingHappens }
{}

/// Each run of the network of a checked file's projection, or of programs above it, that is closed is a
/// run of the choreography, to its end or as long as was asked for, first in, first out, and each session
/// follows its protocol. It is never stuck.
pub fn closed_runs_are_runs()
    ensures { ClosedRunsAreRuns }
{
    nothing_happens();
    checked_never_stuck();
    checked_runs();
}

/// So is each run that goes on by the pick rule after given events, since it is closed.
pub fn scheduled_runs_are_runs()
    ensures { ScheduledRunsAreRuns }
{
    closed_runs_are_runs();
}

/// The projection of a file is, unit by unit, above itself.
pub fn projection_is_above()
    ensures { ProjectionIsAbove }
{}

/// Programs that are, unit by unit, above programs above the projection are above the projection.
pub fn above_stays_above()
    ensures { AboveStaysAbove }
{}

/// Where the projection of a file without faults, or programs above it, were linked with others, the
/// network of the linked programs has exactly the runs of the file's choreography.
pub fn linked_runs_are_runs()
    ensures { LinkedRunsAreRuns }
{
    endpoint_link::linked_is_above();
    above_stays_above();
    checked_runs();
}

/// Programs above the projection of a file without faults have a table with more names. To their runs
/// host functions mean the same by the names of the file.
pub fn runs_ask_alike()
    ensures runs { RunsAskAlike }
    ensures scheduled { ScheduledRunsAskAlike }
{
    checked_runs();
}
