//! Endpoint programs that are read from a text, and the lines of their events.

ghost use Rattle.std.specs.Prelude.{IfOk};
ghost use Rattle.chor_host.specs.Functions.{names_of};
ghost use Rattle.chor_host.specs.Tables.{functions_of};
ghost use Rattle.endpoint_code.specs.Faults.{IsFaultlessWith};

use chor_base::{Entry, List, Memory};
use chor_host::{HostTable, host_dice, host_gap, host_max, host_min, program_hosts};
use endpoint_check::read_programs;
use endpoint_code::Endpoints;
use std::alloc::Global;
use std::process::Abort;
use std::test::Fail;
use transcript::{Book, print_events};

// How many bytes a text has at most: 16 MiB.
const LONGEST: usize = 16_777_216;

/// The host functions of the program.
pub fn functions(alloc: Global) -> Result<HostTable, Memory> {
    program_hosts(alloc, host_min, host_max, host_gap, host_dice)
}

/// The programs that a text is of.
#[tactic(auto, using(endpoint_laws::proofs::Read::read_is_faultless))]
pub fn read(
    rt: &impl Abort,
    alloc: Global,
    hosts: &HostTable,
    text: &[u8],
) -> Result<Endpoints, Fail>
    ensures { IfOk result (IsFaultlessWith (names_of (functions_of hosts.now))) }
{
    if text.len() > LONGEST {
        panic!(rt; "it is too long");
    }
    let endpoints = read_programs(alloc, text, hosts)?;
    Ok(endpoints)
}

/// The lines of events, as they stand in a transcript.
pub fn lines(alloc: Global, endpoints: &Endpoints, history: &[Entry]) -> Result<Vec<u8>, Memory> {
    let mut processes = List::new(alloc);
    for process in endpoints.processes.as_slice() {
        processes.push(process.name)?;
    }
    let book = Book {
        names: &endpoints.names,
        texts: &endpoints.texts,
        processes: &processes,
    };
    let mut out = Vec::new(alloc);
    print_events(alloc, history, &book, &mut out)?;
    Ok(out)
}

/// Whether events have the same lines as others.
pub fn are_alike(
    alloc: Global,
    endpoints: &Endpoints,
    left: &[Entry],
    right: &[Entry],
) -> Result<bool, Memory> {
    let told = lines(alloc, endpoints, left)?;
    let want = lines(alloc, endpoints, right)?;
    Ok(told.as_slice() == want.as_slice())
}
