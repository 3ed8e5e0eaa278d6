//! Running an accepted source.

ghost use Rattle.std.specs.Prelude.{◌≡◌, ◌<◌, ◌≤◌, ◌^◌, IfOk};
ghost use Rattle.chor_host.specs.Functions.{names_of, hosts_in};
ghost use Rattle.chor_host.specs.Tables.{functions_of};
ghost use Rattle.well_formed.specs.Asked.{IsAnswered};
ghost use Rattle.accepted_files.specs.MoreNames.{ScheduledRunsAskAlike};
ghost use Rattle.accepted_files.specs.Runs.{ScheduledRunsAreRuns};
ghost use Rattle.simulation.specs.Runs.{IsOutcomeOf};

use crate::accepted::Accepted;
use chor_base::{Entry, List, Memory};
use chor_host::HostTable;
use endpoint_runs::{Closed, Schedule, run_within};
use std::alloc::Global;

/// The events of a run.
#[derive(Drop)]
pub struct Outcome {
    pub history: List<Entry>,
    /// Whether each process has ended; else there are as many events as were asked for.
    pub ended: bool,
}

/// The run of an accepted file by the pick rule with this seed, under the file's capacity, to its end or
/// to as many events as asked for. It asks the host functions of the table with which the file was accepted. It is never
/// stuck.
pub fn run_accepted(
    alloc: Global,
    accepted: &Accepted,
    hosts: &HostTable,
    seed: u64,
    steps: u64,
) -> Result<Outcome, Memory>
    requires hosts { accepted.now.typed.hosts ≡ names_of (functions_of hosts.now) }
    requires seed { seed < 2 ^ 32 }
    requires few { steps ≤ 1000000 }
    ensures { IfOk result (IsOutcomeOf accepted.now (functions_of hosts.now) seed steps) }
{
    laws();
    functions_answer(accepted, hosts);
    let endpoints = accepted.endpoints();
    // that no name stands twice
    let _count = endpoints.names.len();
    let schedule = Schedule { seed, steps };
    let ran = run_within(alloc, endpoints, hosts, accepted.capacity(), schedule)?;
    match ran.closed {
        Closed::Ended => Ok(Outcome {
            history: ran.history,
            ended: true,
        }),
        Closed::Limit => Ok(Outcome {
            history: ran.history,
            ended: false,
        }),
        Closed::Stuck(_, _) => unreachable!(),
    }
}

// What is proved of each accepted file and its runs.
pub(crate) fn laws()
    ensures runs { ScheduledRunsAreRuns }
    ensures alike { ScheduledRunsAskAlike }
{
    accepted_files::scheduled_runs_are_runs();
    accepted_files::runs_ask_alike();
}

// Each host function that an accepted file asks has an answer.
pub(crate) fn functions_answer(accepted: &Accepted, hosts: &HostTable)
    requires { accepted.now.typed.hosts ≡ names_of (functions_of hosts.now) }
    ensures { IsAnswered accepted.now.typed.file (hosts_in accepted.now.typed.file.names (functions_of hosts.now)) }
{
    accepted_files::asked_functions_answer();
    // that no name stands twice
    let _count = accepted.typed().file().names.len();
}
