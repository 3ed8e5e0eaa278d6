//! The events of a file that is replayed on an accepted source.

ghost use Rattle.std.specs.Prelude.{◌≡◌, ◌≤◌, ◌^◌, length};
ghost use Rattle.chor_host.specs.Functions.{names_of as host_names, hosts_in};
ghost use Rattle.chor_host.specs.Tables.{functions_of};
ghost use Rattle.endpoint_code.specs.Faults.{IsFaultlessWith};
ghost use Rattle.event_files.specs.Events.{TellsNetworkEvents};
ghost use Rattle.event_reader.specs.Known.{AreWords, IsBook};
ghost use Rattle.program_runs.specs.Books.{book_of};
ghost use Rattle.accepted_replays.specs.Events.{TellsSourceEvents};

use crate::replaying::{laws, names_of, tells_apart};
use chor_base::{Event, List};
use chor_host::HostTable;
use chor_tree::File;
use endpoint_code::Endpoints;
use event_files::replayed_events;
use replay::ReplayFault;
use simulation::Accepted;
use std::alloc::Global;
use transcript::Book;

/// Replays a file as `replay_accepted` does, and answers its events. It takes memory for all of them.
pub fn accepted_events(
    alloc: Global,
    accepted: &Accepted,
    hosts: &HostTable,
    capacity: Option<u32>,
    bytes: &[u8],
) -> Result<List<Event>, ReplayFault>
    requires hosts { accepted.now.typed.hosts ≡ host_names (functions_of hosts.now) }
    requires words { AreWords accepted.now.typed.file.names }
    requires few { length bytes.now ≤ 2 ^ 26 }
    ensures { TellsSourceEvents accepted.now.typed.file (hosts_in accepted.now.typed.file.names (functions_of hosts.now)) capacity bytes.now result }
{
    laws();
    let endpoints = accepted.endpoints();
    // that no name stands twice
    let _count = endpoints.names.len();
    let typed = accepted.typed();
    tells_apart(typed);
    events_on(alloc, typed.file(), endpoints, hosts, capacity, bytes)
}

// Replays a file on the network of these programs, with the names and texts of this source, and
// answers its events.
fn events_on(
    alloc: Global,
    file: &File,
    endpoints: &Endpoints,
    hosts: &HostTable,
    capacity: Option<u32>,
    bytes: &[u8],
) -> Result<List<Event>, ReplayFault>
    requires faultless { IsFaultlessWith (host_names (functions_of hosts.now)) endpoints.now }
    requires book { IsBook (book_of file.now) }
    requires few { length bytes.now ≤ 2 ^ 26 }
    ensures { TellsNetworkEvents (book_of file.now) endpoints.now (hosts_in endpoints.now.names (functions_of hosts.now)) capacity bytes.now result }
{
    let processes = names_of(alloc, file.processes.as_slice())?;
    let book = Book {
        names: &file.names,
        texts: &file.texts,
        processes: &processes,
    };
    replayed_events(alloc, endpoints, hosts, capacity, &book, bytes)
}
