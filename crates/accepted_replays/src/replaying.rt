//! The replay of a file of events on an accepted source.

ghost use Rattle.std.specs.Prelude.{◌≡◌, ◌≤◌, ◌^◌, IfOk, length};
ghost use Rattle.chor_host.specs.Functions.{names_of as host_names, hosts_in};
ghost use Rattle.chor_host.specs.Tables.{functions_of};
ghost use Rattle.chor_tree.specs.Names.{names_in};
ghost use Rattle.accepted_files.specs.Accepted.{NetworkRunsAreRuns, RunsAreNetworkRuns};
ghost use Rattle.accepted_files.specs.MoreNames.{RunsAskAlike};
ghost use Rattle.endpoint_code.specs.Faults.{IsFaultlessWith};
ghost use Rattle.event_files.specs.Networks.{ReplaysNetwork};
ghost use Rattle.event_reader.specs.Known.{AreWords, IsBook};
ghost use Rattle.accepted_replays.specs.Laws.{RunsEndTogether};
ghost use Rattle.program_runs.specs.Books.{book_of};
ghost use Rattle.accepted_replays.specs.Sources.{ReplaysSource};

use chor_base::{List, Memory, NameId};
use chor_host::HostTable;
use chor_tree::{File, Named};
use endpoint_code::Endpoints;
use event_files::replay_file;
use replay::{ReplayFault, Replayed};
use simulation::Accepted;
use std::alloc::Global;
use transcript::Book;
use type_check::Typed;

/// Replays the events of a file on an accepted source, under a capacity of its queues if there is one.
/// `Unmatched` tells the number of the first line,
/// from 1, that doesn't match. It asks the host functions of the table with which the source was
/// accepted. The names of each source that was read are words.
pub fn replay_accepted(
    alloc: Global,
    accepted: &Accepted,
    hosts: &HostTable,
    capacity: Option<u32>,
    bytes: &[u8],
) -> Result<Replayed, ReplayFault>
    requires hosts { accepted.now.typed.hosts ≡ host_names (functions_of hosts.now) }
    requires words { AreWords accepted.now.typed.file.names }
    requires few { length bytes.now ≤ 2 ^ 26 }
    ensures { ReplaysSource accepted.now.typed.file (hosts_in accepted.now.typed.file.names (functions_of hosts.now)) capacity bytes.now result }
{
    laws();
    let endpoints = accepted.endpoints();
    // that no name stands twice
    let _count = endpoints.names.len();
    let typed = accepted.typed();
    tells_apart(typed);
    replay_on(alloc, typed.file(), endpoints, hosts, capacity, bytes)
}

// What is proved of each accepted file and its runs.
pub fn laws()
    ensures to { NetworkRunsAreRuns }
    ensures back { RunsAreNetworkRuns }
    ensures alike { RunsAskAlike }
    ensures end { RunsEndTogether }
{
    accepted_files::checked_runs();
    accepted_files::runs_ask_alike();
    crate::laws::runs_end_together();
}

// Replays the events on the network of these programs, with the names and texts of this file.
fn replay_on(
    alloc: Global,
    file: &File,
    endpoints: &Endpoints,
    hosts: &HostTable,
    capacity: Option<u32>,
    bytes: &[u8],
) -> Result<Replayed, ReplayFault>
    requires faultless { IsFaultlessWith (host_names (functions_of hosts.now)) endpoints.now }
    requires book { IsBook (book_of file.now) }
    requires few { length bytes.now ≤ 2 ^ 26 }
    ensures { ReplaysNetwork (book_of file.now) endpoints.now (hosts_in endpoints.now.names (functions_of hosts.now)) capacity bytes.now result }
{
    let processes = names_of(alloc, file.processes.as_slice())?;
    let book = Book {
        names: &file.names,
        texts: &file.texts,
        processes: &processes,
    };
    replay_file(alloc, endpoints, hosts, capacity, &book, bytes)
}

// The book of a typed file tells its names, texts and processes apart, where its names are words.
pub fn tells_apart(typed: &Typed)
    requires { AreWords typed.now.file.names }
    ensures { IsBook (book_of typed.now.file) }
{
    let file = typed.file();
    // that no name and no text stands twice
    let _names = file.names.len();
    let _texts = file.texts.len();
}

pub fn names_of(alloc: Global, written: &[Named]) -> Result<List<NameId>, Memory>
    ensures { IfOk result (λ list. list ≡ names_in written.now) }
{
    let mut list = List::new(alloc);
    for name in written {
        list.push(name.name)?;
    }
    Ok(list)
}
