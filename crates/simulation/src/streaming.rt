//! Runs of an accepted source that are written while workers make them.

ghost use Rattle.std.specs.Prelude.{◌≡◌, ◌≤◌};
ghost use Rattle.chor_host.specs.Functions.{names_of};
ghost use Rattle.chor_host.specs.Tables.{functions_of};
ghost use Rattle.endpoint_runs.specs.Runs.{close_of as closing_of};
ghost use Rattle.transcript.specs.Books.{words};
ghost use Rattle.simulation.specs.Runs.{close_of};
ghost use Rattle.simulation.specs.Streams.{IsStreamedRun, WritesTranscript};

use crate::accepted::Accepted;
use crate::running::{Outcome, functions_answer};
use crate::running_by::laws;
use chor_host::HostTable;
use chor_io::{Gate, Sink};
use chor_stream::Finished;
use endpoint_runs::Closed;
use program_runs::write_closing;
use std::alloc::Global;
use std::sync::Wait;
use std::thread::Threads;
use transcript::Book;
use workers::{Streamed, Task, run_workers_to};

/// What came of a run whose lines were written while workers made it.
#[derive(Drop)]
pub enum StreamedRun {
    /// The run was made, and all its lines were written.
    Done(Outcome),
    /// Writing failed.
    Failed,
    /// Memory ran out.
    Memory,
}

/// Makes a run of an accepted file by workers, as [`run_accepted_by`](crate::run_accepted_by) does, and
/// writes the lines of its events meanwhile, with the words of this book. Where writing failed, or memory
/// ran out, a prefix of the lines of a run was written. The call waits until all workers have ended.
pub fn run_accepted_to<R: Threads + Wait + Sync, G: Gate + Sync, K: Sink>(
    rt: &R,
    alloc: Global,
    accepted: &Accepted,
    hosts: &HostTable,
    task: Task,
    gate: &G,
    book: &Book<'_>,
    out: &mut K,
) -> StreamedRun
    requires hosts { accepted.now.typed.hosts ≡ names_of (functions_of hosts.now) }
    requires workers { (1 ≤ task.workers) × (task.workers ≤ 16) }
    requires steps { task.steps ≤ 1000000 }
    ensures streamed { IsStreamedRun (words book.now) accepted.now (functions_of hosts.now) task.workers task.steps (K.state out.old) (K.state out.new) result }
    ensures rises { (K.state out.old).faults ≤ (K.state out.new).faults }
{
    laws();
    unfinished_runs::runs_can_be_closed();
    functions_answer(accepted, hosts);
    let endpoints = accepted.endpoints();
    // that no name stands twice
    let _count = endpoints.names.len();
    let capacity = accepted.capacity();
    let Task { workers, steps } = task;
    let told = match run_workers_to(
        rt, alloc, endpoints, hosts, capacity, workers, steps, gate, book, out,
    ) {
        Streamed::Done(told) => told,
        Streamed::Failed => return StreamedRun::Failed,
        Streamed::Memory => return StreamedRun::Memory,
    };
    match told.close {
        Closed::Ended => StreamedRun::Done(Outcome {
            history: told.history,
            ended: true,
        }),
        Closed::Limit => StreamedRun::Done(Outcome {
            history: told.history,
            ended: false,
        }),
        Closed::Stuck(_, _) => unreachable!(),
    }
}

/// Writes the transcript of such a run while workers make it, its last line too, with the words of this
/// book. The run goes to its end or to as many events as asked for, and is never stuck. Where writing
/// failed, or memory ran out, a prefix of a transcript was written.
pub fn tell_accepted_to<R: Threads + Wait + Sync, G: Gate + Sync, K: Sink>(
    rt: &R,
    alloc: Global,
    accepted: &Accepted,
    hosts: &HostTable,
    task: Task,
    gate: &G,
    book: &Book<'_>,
    out: &mut K,
) -> Finished
    requires hosts { accepted.now.typed.hosts ≡ names_of (functions_of hosts.now) }
    requires workers { (1 ≤ task.workers) × (task.workers ≤ 16) }
    requires steps { task.steps ≤ 1000000 }
    ensures written { WritesTranscript (words book.now) accepted.now (functions_of hosts.now) task.steps result (K.state out.old) (K.state out.new) }
    ensures rises { (K.state out.old).faults ≤ (K.state out.new).faults }
{
    match run_accepted_to(rt, alloc, accepted, hosts, task, gate, book, out) {
        StreamedRun::Done(outcome) => {
            let count = outcome.history.len() as u64;
            write_closing(alloc, count, closed(outcome.ended), book, out)
        }
        StreamedRun::Failed => Finished::Failed,
        StreamedRun::Memory => Finished::Memory,
    }
}

// How a run is closed that has ended or not.
fn closed(ended: bool) -> Closed
    ensures { closing_of result ≡ close_of ended }
{
    if ended { Closed::Ended } else { Closed::Limit }
}
