//! The transcript of an accepted source's run.

ghost use Rattle.std.specs.Prelude.{◌≡◌, ◌<◌, ◌≤◌, ◌^◌, IfOk};
ghost use Rattle.chor_host.specs.Functions.{names_of};
ghost use Rattle.chor_host.specs.Tables.{functions_of};
ghost use Rattle.transcript.specs.Books.{words};
ghost use Rattle.simulation.specs.Told.{IsToldOf};

use crate::accepted::Accepted;
use crate::running::{functions_answer, laws};
use chor_base::Memory;
use chor_host::HostTable;
use endpoint_runs::{Run, Schedule};
use program_runs::tell_run;
use std::alloc::Global;
use transcript::Book;

/// The transcript, with the words of this book, of the run of an accepted file by the pick rule, under the
/// file's capacity, to its end or to as many events as asked for. It asks the host functions of the table
/// with which the file was accepted. It is never stuck.
pub fn tell_accepted(
    alloc: Global,
    accepted: &Accepted,
    hosts: &HostTable,
    book: &Book,
    schedule: Schedule,
) -> Result<Vec<u8>, Memory>
    requires hosts { accepted.now.typed.hosts ≡ names_of (functions_of hosts.now) }
    requires seed { schedule.seed < 2 ^ 32 }
    requires few { schedule.steps ≤ 1000000 }
    ensures { IfOk result (λ text. IsToldOf (words book.now) accepted.now (functions_of hosts.now) schedule text.items) }
{
    laws();
    functions_answer(accepted, hosts);
    let endpoints = accepted.endpoints();
    // that no name stands twice
    let _count = endpoints.names.len();
    let run = Run::new(alloc, endpoints, accepted.capacity(), schedule)?;
    let told = tell_run(alloc, run, hosts, book)?;
    Ok(told.text)
}
