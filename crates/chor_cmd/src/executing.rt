//! `exec`.

ghost use Rattle.std.specs.Prelude.{◌≡◌, ◌≢◌, [], ◌∷◌, IfOk};
ghost use Rattle.chor_host.specs.Tables.{functions_of};
ghost use Rattle.endpoint_code.specs.Faults.{IsFaultlessWith};
ghost use Rattle.command_words.specs.declared.words.Command.TheVariants.{Exec};
ghost use Rattle.chor_cmd.specs.Endings.{host_names};
ghost use Rattle.chor_cmd.specs.Runs.{IsAskedTranscript};
ghost use Rattle.chor_cmd.specs.Status.{status_of, executed_status};
ghost use Rattle.chor_cmd.specs.Stops.{Answers, HasSaid, TouchesOnly};

use crate::ending::{Ending, Stop};
use crate::finishing::tell_stop;
use crate::sources::fetch_programs;
use crate::status::Status;
use chor_base::Word;
use chor_host::HostTable;
use chor_io::{Gate, Shelf, Sink};
use command_words::Options;
use endpoint_runs::Schedule;
use program_runs::{Executed, ExecutedTo, execute as scheduled, execute_to};
use std::alloc::Global;
use std::sync::Wait;
use std::thread::Threads;
use workers::Task;

/// Writes the transcript of the scheduled run of the endpoint programs of this name.
pub fn execute<'a, F: Shelf>(
    alloc: Global,
    name: &'a Word,
    options: Options,
    hosts: &HostTable,
    shelf: &mut F,
) -> Result<Ending, Stop<'a>>
    ensures answers { Answers (functions_of hosts.now) (Exec options) (name.now ∷ []) (F.state shelf.old) (F.state shelf.new) result }
    ensures only { TouchesOnly (name.now ∷ []) (F.state shelf.old) (F.state shelf.new) }
{
    let programs = fetch_programs(alloc, name, hosts, shelf)?;
    let schedule = Schedule {
        seed: options.seed,
        steps: options.steps,
    };
    let executed = scheduled(alloc, &programs, hosts, options.capacity, schedule);
    drop(programs);
    let executed = executed?;
    Ok(ending_of(executed))
}

/// Writes the transcript of a run that workers make, of the endpoint programs of this name, while they
/// make it.
pub fn execute_by<R: Threads + Wait + Sync, F: Shelf, K: Sink, G: Gate + Sync>(
    rt: &R,
    alloc: Global,
    name: &Word,
    options: Options,
    hosts: &HostTable,
    shelf: &mut F,
    gate: &G,
    out: &mut K,
) -> Status
    requires { options.workers ≢ 0 }
    ensures said { HasSaid (functions_of hosts.now) (Exec options) (name.now ∷ []) (F.state shelf.old) (F.state shelf.new) (K.state out.old) (K.state out.new) result }
    ensures only { TouchesOnly (name.now ∷ []) (F.state shelf.old) (F.state shelf.new) }
{
    match fetch_programs(alloc, name, hosts, shelf) {
        Ok(programs) => {
            let task = Task {
                workers: options.workers,
                steps: options.steps,
            };
            let capacity = options.capacity;
            let executed = execute_to(rt, alloc, &programs, hosts, capacity, task, gate, out);
            drop(programs);
            status_after(executed)
        }
        Err(stop) => tell_stop(alloc, out, &stop),
    }
}

// A run that is stuck has a status of its own.
fn ending_of(executed: Executed) -> Ending
    ensures text { result.text.items ≡ executed.text.items }
    ensures status { result.status ≡ status_of executed.stuck }
{
    let status = if executed.stuck {
        Status::Stuck
    } else {
        Status::Done
    };
    Ending {
        text: executed.text,
        status,
    }
}

// The status with which a call ends whose transcript was written while the run was made.
fn status_after(executed: ExecutedTo) -> Status
    ensures { result ≡ executed_status executed }
{
    match executed {
        ExecutedTo::Written(true) => Status::Stuck,
        ExecutedTo::Written(false) => Status::Done,
        ExecutedTo::Failed => Status::WriteFault,
        ExecutedTo::Memory => Status::Memory,
    }
}
