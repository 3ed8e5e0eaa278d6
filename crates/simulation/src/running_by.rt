//! Running an accepted source by workers.

ghost use Rattle.std.specs.Prelude.{◌≡◌, ◌≤◌, IfOk};
ghost use Rattle.chor_host.specs.Functions.{names_of};
ghost use Rattle.chor_host.specs.Tables.{functions_of};
ghost use Rattle.accepted_files.specs.ClosedRuns.{ClosedRunsAreRuns};
ghost use Rattle.accepted_files.specs.MoreNames.{RunsAskAlike};
ghost use Rattle.simulation.specs.RunsBy.{IsOutcomeBy};

use crate::accepted::Accepted;
use crate::running::{Outcome, functions_answer};
use chor_base::Memory;
use chor_host::HostTable;
use chor_io::Gate;
use endpoint_runs::Closed;
use std::alloc::Global;
use std::sync::Wait;
use std::thread::Threads;
use workers::run_workers;

/// A run of an accepted file that so many workers make, each in its turn, under the file's capacity, to
/// its end or to as many events as asked for. The order of their turns isn't determined. It asks the host functions of the
/// table with which the file was accepted. It is never stuck. The call waits until all workers have
/// ended.
pub fn run_accepted_by<R: Threads + Wait + Sync, G: Gate + Sync>(
    rt: &R,
    alloc: Global,
    accepted: &Accepted,
    hosts: &HostTable,
    workers: u32,
    steps: u64,
    gate: &G,
) -> Result<Outcome, Memory>
    requires hosts { accepted.now.typed.hosts ≡ names_of (functions_of hosts.now) }
    requires workers { (1 ≤ workers) × (workers ≤ 16) }
    requires steps { steps ≤ 1000000 }
    ensures { IfOk result (IsOutcomeBy accepted.now (functions_of hosts.now) workers steps) }
{
    laws();
    functions_answer(accepted, hosts);
    let endpoints = accepted.endpoints();
    // that no name stands twice
    let _count = endpoints.names.len();
    let told = run_workers(
        rt,
        alloc,
        endpoints,
        hosts,
        accepted.capacity(),
        workers,
        steps,
        gate,
    )?;
    match told.close {
        Closed::Ended => Ok(Outcome {
            history: told.history,
            ended: true,
        }),
        Closed::Limit => Ok(Outcome {
            history: told.history,
            ended: false,
        }),
        Closed::Stuck(_, _) => unreachable!(),
    }
}

// What is proved of each run of an accepted file that is closed.
pub(crate) fn laws()
    ensures runs { ClosedRunsAreRuns }
    ensures alike { RunsAskAlike }
{
    accepted_files::closed_runs_are_runs();
    accepted_files::runs_ask_alike();
}
