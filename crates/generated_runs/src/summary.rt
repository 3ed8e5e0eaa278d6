//! The run of a generated file.

ghost use Rattle.std.specs.Prelude.{◌≡◌, ◌≤◌, IfOk};
ghost use Rattle.chor_host.specs.Functions.{names_of};
ghost use Rattle.chor_host.specs.Tables.{functions_of};
ghost use Rattle.generated_files.specs.Generated.{IsGenerated};
ghost use Rattle.generated_runs.specs.Texts.{IsSummary, IsLineFor, summary_line};

use crate::counts::{Counts, counts_of};
use chor_base::{Denied, Memory, put_bytes, put_number};
use chor_host::HostTable;
use chor_tree::File;
use endpoint_code::Endpoints;
use generated_files::generate_faultless;
use simulation::{Accepted, Outcome, accept, run_accepted};
use std::alloc::Global;
use std::thread::Threads;

// The run has the seed 0, and as many events as a run can have.
const SEED: u64 = 0;

const STEPS: u64 = 1_000_000;

/// One line: how many events, sessions and processes the run of the file with so many rounds has, by
/// the pick rule with the seed 0.
pub fn generated_summary<R: Threads + Sync>(
    rt: &R,
    alloc: Global,
    count: u32,
    hosts: &HostTable,
) -> Result<Vec<u8>, Memory>
    requires some { 1 ≤ count }
    requires few { count ≤ 4000 }
    ensures { IfOk result (λ text. IsSummary (functions_of hosts.now) count text.items) }
{
    let file = generate_faultless(alloc, count)?;
    let accepted = accepted_rounds(rt, alloc, file, hosts, count)?;
    let line = summary_of(alloc, &accepted, hosts, count);
    drop(accepted);
    line
}

// What the run of a file with so many rounds counts.
fn summary_of(
    alloc: Global,
    accepted: &Accepted,
    hosts: &HostTable,
    count: u32,
) -> Result<Vec<u8>, Memory>
    requires hosts { accepted.now.typed.hosts ≡ names_of (functions_of hosts.now) }
    requires generated { IsGenerated accepted.now.typed.file count }
    ensures { IfOk result (λ text. IsSummary (functions_of hosts.now) count text.items) }
{
    let outcome = run_accepted(alloc, accepted, hosts, SEED, STEPS)?;
    line_for(alloc, accepted.endpoints(), &outcome, count)
}

// The line for the run of endpoint programs.
fn line_for(
    alloc: Global,
    endpoints: &Endpoints,
    outcome: &Outcome,
    count: u32,
) -> Result<Vec<u8>, Memory>
    ensures { IfOk result (λ line. IsLineFor endpoints.now outcome.now.history count line.items) }
{
    let history = outcome.history.as_slice();
    let counts = counts_of(history, endpoints.processes.len() as u64);
    line_of(alloc, count, history.len() as u64, counts)
}

// The file with so many rounds, which is accepted.
fn accepted_rounds<R: Threads + Sync>(
    rt: &R,
    alloc: Global,
    file: File,
    hosts: &HostTable,
    count: u32,
) -> Result<Accepted, Memory>
    requires { IsGenerated file count }
    ensures file { IfOk result (λ accepted. accepted.typed.file ≡ file) }
    ensures hosts { IfOk result (λ accepted. accepted.typed.hosts ≡ names_of (functions_of hosts.now)) }
{
    generated_files::generated_is_accepted();
    match accept(rt, alloc, file, hosts) {
        Ok(accepted) => Ok(accepted),
        Err(Denied::Memory) => Err(Memory),
        Err(Denied::Refused(_)) => unreachable!(),
    }
}

// `gen`, how many rounds there are, and what their run counts.
fn line_of(alloc: Global, count: u32, events: u64, counts: Counts) -> Result<Vec<u8>, Memory>
    ensures { IfOk result (λ line. line.items ≡ summary_line count events counts.sessions counts.processes) }
{
    let mut line = b"gen ".to_vec(alloc)?;
    put_number(&mut line, alloc, u64::from(count))?;
    put_bytes(&mut line, b" events ".as_slice())?;
    put_number(&mut line, alloc, events)?;
    put_bytes(&mut line, b" sessions ".as_slice())?;
    put_number(&mut line, alloc, counts.sessions)?;
    put_bytes(&mut line, b" processes ".as_slice())?;
    put_number(&mut line, alloc, counts.processes)?;
    put_bytes(&mut line, b"\n".as_slice())?;
    Ok(line)
}
