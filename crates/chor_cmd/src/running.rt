//! `run`.

ghost use Rattle.std.specs.Prelude.{◌≡◌, ◌≢◌, [], ◌∷◌, IfOk, ⊤};
ghost use Rattle.chor_host.specs.Tables.{functions_of};
ghost use Rattle.chor_tree.specs.Names.{names_in};
ghost use Rattle.command_words.specs.declared.words.Command.TheVariants.{Run};
ghost use Rattle.simulation.specs.Capacity.{capacity_of};
ghost use Rattle.chor_cmd.specs.Endings.{HasWritten, host_names};
ghost use Rattle.chor_cmd.specs.Outputs.{TellsRun};
ghost use Rattle.chor_cmd.specs.Rows.{IsDoneWith};
ghost use Rattle.chor_cmd.specs.Status.{finished_status};
ghost use Rattle.chor_cmd.specs.Stops.{Answers, HasSaid, TouchesOnly};

use crate::ending::{Ending, Stop};
use crate::finishing::tell_stop;
use crate::sources::fetch_accepted;
use crate::status::Status;
use chor_base::{List, Memory, NameId, Word};
use chor_host::HostTable;
use chor_io::{Gate, Shelf, Sink};
use chor_stream::Finished;
use chor_tree::Named;
use command_words::Options;
use endpoint_runs::Schedule;
use simulation::{Accepted, tell_accepted, tell_accepted_to};
use std::alloc::Global;
use std::sync::Wait;
use std::thread::Threads;
use transcript::Book;
use workers::Task;

/// Writes the transcript of the scheduled run of the source of this name.
pub fn run<'a, R: Threads + Sync, F: Shelf>(
    rt: &R,
    alloc: Global,
    name: &'a Word,
    options: Options,
    hosts: &HostTable,
    shelf: &mut F,
) -> Result<Ending, Stop<'a>>
    ensures answers { Answers (functions_of hosts.now) (Run options) (name.now ∷ []) (F.state shelf.old) (F.state shelf.new) result }
    ensures only { TouchesOnly (name.now ∷ []) (F.state shelf.old) (F.state shelf.new) }
{
    let accepted = fetch_accepted(rt, alloc, name, hosts, shelf)?;
    let text = scheduled_text(alloc, &accepted, options, hosts);
    drop(accepted);
    let text = text?;
    Ok(Ending {
        text,
        status: Status::Done,
    })
}

/// Writes the transcript of a run that workers make, of the source of this name, while they make it.
pub fn run_by<R: Threads + Wait + Sync, F: Shelf, K: Sink, G: Gate + Sync>(
    rt: &R,
    alloc: Global,
    name: &Word,
    options: Options,
    hosts: &HostTable,
    shelf: &mut F,
    gate: &G,
    out: &mut K,
) -> Status
    requires { options.workers ≢ 0 }
    ensures said { HasSaid (functions_of hosts.now) (Run options) (name.now ∷ []) (F.state shelf.old) (F.state shelf.new) (K.state out.old) (K.state out.new) result }
    ensures only { TouchesOnly (name.now ∷ []) (F.state shelf.old) (F.state shelf.new) }
{
    match fetch_accepted(rt, alloc, name, hosts, shelf) {
        Ok(accepted) => {
            let status = tell_by(rt, alloc, &accepted, options, hosts, gate, out);
            drop(accepted);
            status
        }
        Err(stop) => tell_stop(alloc, out, &stop),
    }
}

/// The transcript of the scheduled run of a file that is accepted with these host functions, or of one
/// that is linked.
pub fn scheduled_text(
    alloc: Global,
    accepted: &Accepted,
    options: Options,
    hosts: &HostTable,
) -> Result<Vec<u8>, Memory>
    requires hosts { accepted.now.typed.hosts ≡ host_names hosts.now }
    ensures { IfOk result (λ text. TellsRun (functions_of hosts.now) accepted.now.typed.file accepted.now.endpoints (capacity_of accepted.now.typed.file) options text.items) }
{
    let file = accepted.typed().file();
    let processes = names_of(alloc, file.processes.as_slice())?;
    let book = Book {
        names: &file.names,
        texts: &file.texts,
        processes: &processes,
    };
    let schedule = Schedule {
        seed: options.seed,
        steps: options.steps,
    };
    let text = tell_accepted(alloc, accepted, hosts, &book, schedule)?;
    Ok(text)
}

/// Writes the transcript of such a file's run that workers make, while they make it, and answers the
/// status with which the call ends.
pub fn tell_by<R: Threads + Wait + Sync, G: Gate + Sync, K: Sink>(
    rt: &R,
    alloc: Global,
    accepted: &Accepted,
    options: Options,
    hosts: &HostTable,
    gate: &G,
    out: &mut K,
) -> Status
    requires hosts { accepted.now.typed.hosts ≡ host_names hosts.now }
    requires workers { options.workers ≢ 0 }
    ensures { HasWritten (IsDoneWith (TellsRun (functions_of hosts.now) accepted.now.typed.file accepted.now.endpoints (capacity_of accepted.now.typed.file) options)) ⊤ ⊤ (K.state out.old) (K.state out.new) result }
{
    let file = accepted.typed().file();
    let Ok(processes) = names_of(alloc, file.processes.as_slice()) else {
        return Status::Memory;
    };
    let book = Book {
        names: &file.names,
        texts: &file.texts,
        processes: &processes,
    };
    let task = Task {
        workers: options.workers,
        steps: options.steps,
    };
    let finished = tell_accepted_to(rt, alloc, accepted, hosts, task, gate, &book, out);
    status_after(finished)
}

// The status with which a call ends whose transcript was written while the run was made.
fn status_after(finished: Finished) -> Status
    ensures { result ≡ finished_status finished }
{
    match finished {
        Finished::Written => Status::Done,
        Finished::Failed => Status::WriteFault,
        Finished::Memory => Status::Memory,
    }
}

fn names_of(alloc: Global, written: &[Named]) -> Result<List<NameId>, Memory>
    ensures { IfOk result (λ list. list ≡ names_in written.now) }
{
    let mut list = List::new(alloc);
    for name in written {
        list.push(name.name)?;
    }
    Ok(list)
}
