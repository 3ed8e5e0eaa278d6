//! The events of a file.

ghost use Rattle.std.specs.Prelude.{◌≤◌, ◌^◌, IfOk, length};
ghost use Rattle.chor_host.specs.Functions.{hosts_in, names_of};
ghost use Rattle.chor_host.specs.Tables.{functions_of};
ghost use Rattle.endpoint_code.specs.Faults.{IsFaultlessWith};
ghost use Rattle.event_reader.specs.Known.{IsBook};
ghost use Rattle.event_files.specs.Events.{TellsNetworkEvents};
ghost use Rattle.event_files.specs.Fronts.{IsFront};
ghost use Rattle.transcript.specs.Books.{words};

use crate::closing::judge;
use chor_base::{Event, List, Memory};
use chor_host::HostTable;
use endpoint_code::Endpoints;
use event_reader::{LineFault, read_event};
use net_core::are_few;
use replay::{ReplayFault, replay};
use std::alloc::Global;
use transcript::Book;
use transcript_lines::first_line;

/// Replays a file as `replay_file` does, and answers its events. It takes memory for all of them.
pub fn replayed_events(
    alloc: Global,
    endpoints: &Endpoints,
    hosts: &HostTable,
    capacity: Option<u32>,
    book: &Book,
    bytes: &[u8],
) -> Result<List<Event>, ReplayFault>
    requires faultless { IsFaultlessWith (names_of (functions_of hosts.now)) endpoints.now }
    requires book { IsBook (words book.now) }
    requires few { length bytes.now ≤ 2 ^ 26 }
    ensures { TellsNetworkEvents (words book.now) endpoints.now (hosts_in endpoints.now.names (functions_of hosts.now)) capacity bytes.now result }
{
    if !are_few(endpoints, bytes.len()) {
        return Err(ReplayFault::Memory);
    }
    let (events, rest) = read_events(alloc, book, bytes)?;
    let replayed = replay(alloc, endpoints, hosts, capacity, events.as_slice())?;
    judge(rest, replayed)?;
    Ok(events)
}

// Reads the events whose texts the first lines are, as many as there are. The bytes of the other lines
// are left.
fn read_events<'a>(
    alloc: Global,
    book: &Book,
    bytes: &'a [u8],
) -> Result<(List<Event>, &'a [u8]), Memory>
    requires book { IsBook (words book.now) }
    requires few { length bytes.now ≤ 2 ^ 26 }
    ensures { IfOk result (λ r. IsFront (words book.now) bytes.now r.0 r.1.now) }
{
    let mut events = List::new(alloc);
    let mut rest = bytes;
    while let Some((line, after)) = first_line(rest) {
        match read_event(alloc, line, events.len() as u64 + 1, book) {
            Ok(event) => events.push(event)?,
            Err(LineFault::BadLine) => return Ok((events, rest)),
            Err(LineFault::Memory) => return Err(Memory),
        }
        rest = after;
    }
    Ok((events, rest))
}
