//! Transcripts that are written while workers make the run.

ghost use Rattle.std.specs.Prelude.{◌≤◌};
ghost use Rattle.chor_host.specs.Functions.{names_of};
ghost use Rattle.chor_host.specs.Tables.{functions_of};
ghost use Rattle.endpoint_code.specs.Faults.{IsFaultlessWith};
ghost use Rattle.program_runs.specs.Streams.{IsExecutedTo};

use crate::closing::write_closing;
use crate::run::{is_stuck, names_of};
use chor_host::HostTable;
use chor_io::{Gate, Sink};
use chor_stream::Finished;
use endpoint_code::Endpoints;
use std::alloc::Global;
use std::sync::Wait;
use std::thread::Threads;
use transcript::Book;
use workers::{Streamed, Task, run_workers_to};

/// What came of a run whose transcript was written while workers made it.
#[derive(Clone, Copy, PartialEq, Eq)]
pub enum ExecutedTo {
    /// The whole transcript was written. Says whether the run is stuck.
    Written(bool),
    /// Writing failed.
    Failed,
    /// Memory ran out.
    Memory,
}

/// Writes the transcript of a run of endpoint programs that so many workers make, each in its turn, until
/// every process has ended, there are as many events as asked for, or no process can step, and writes it
/// while the run is made. Each queue takes at most as many loads as the capacity says, if there is one. The
/// last line tells how the run ends, and where it is stuck, who waits for what. Where writing failed, or
/// memory ran out, a prefix of a transcript was written. The call waits until all workers have ended.
pub fn execute_to<R: Threads + Wait + Sync, G: Gate + Sync, K: Sink>(
    rt: &R,
    alloc: Global,
    endpoints: &Endpoints,
    hosts: &HostTable,
    capacity: Option<u32>,
    task: Task,
    gate: &G,
    out: &mut K,
) -> ExecutedTo
    requires faultless { IsFaultlessWith (names_of (functions_of hosts.now)) endpoints.now }
    requires workers { (1 ≤ task.workers) × (task.workers ≤ 16) }
    requires steps { task.steps ≤ 1000000 }
    ensures written { IsExecutedTo (functions_of hosts.now) endpoints.now capacity task.steps (K.state out.old) (K.state out.new) result }
    ensures rises { (K.state out.old).faults ≤ (K.state out.new).faults }
{
    unfinished_runs::runs_can_be_closed();
    // that no name stands twice
    let _count = endpoints.names.len();
    let Ok(processes) = names_of(alloc, endpoints.processes.as_slice()) else {
        return ExecutedTo::Memory;
    };
    let book = Book {
        names: &endpoints.names,
        texts: &endpoints.texts,
        processes: &processes,
    };
    let Task { workers, steps } = task;
    let told = match run_workers_to(
        rt, alloc, endpoints, hosts, capacity, workers, steps, gate, &book, out,
    ) {
        Streamed::Done(told) => told,
        Streamed::Failed => return ExecutedTo::Failed,
        Streamed::Memory => return ExecutedTo::Memory,
    };
    let count = told.history.len() as u64;
    match write_closing(alloc, count, told.close, &book, out) {
        Finished::Written => ExecutedTo::Written(is_stuck(told.close)),
        Finished::Failed => ExecutedTo::Failed,
        Finished::Memory => ExecutedTo::Memory,
    }
}
