//! Fetching the files that a command reads, and judging them.

ghost use Rattle.std.specs.Prelude.{◌≡◌, ◌<◌, ◌≤◌, ◌^◌, [], ◌∷◌, IfOk, IfErr};
ghost use Rattle.event_reader.specs.Known.{AreWords};
ghost use Rattle.projection.specs.Projects.{Projects};
ghost use Rattle.source_check.specs.declared.rules.Rules.TheVariants.{All};
ghost use Rattle.source_check.specs.Source.{Violates};
ghost use Rattle.endpoint_check.specs.Programs.{ViolatesPrograms};
ghost use Rattle.chor_cmd.specs.Endings.{host_names};
ghost use Rattle.chor_cmd.specs.Rows.{source_limit, programs_limit};
ghost use Rattle.chor_cmd.specs.Stops.{HasFetched, HasFetchedFile, HasFetchedSource, HasFetchedPrograms, IsNoText, IsUnread, TouchesOnly};

use crate::ending::Stop;
use chor_base::Word;
use chor_host::HostTable;
use chor_io::{Fetched, Shelf};
use chor_tree::File;
use endpoint_check::read_programs;
use endpoint_code::Endpoints;
use simulation::{Accepted, accept};
use source_check::read;
use std::alloc::Global;
use std::thread::Threads;

// How many bytes a source has at most.
const SOURCE_LIMIT: u64 = 1 << 20;

/// How many bytes an events file has at most.
pub const EVENTS_LIMIT: u64 = 1 << 26;

// How many bytes an endpoint file has at most.
const PROGRAMS_LIMIT: u64 = 1 << 24;

/// The bytes of the file of this name, which are at most so many.
pub fn fetch_bytes<'a, F: Shelf>(
    alloc: Global,
    name: &'a Word,
    limit: u64,
    shelf: &mut F,
) -> Result<Vec<u8>, Stop<'a>>
    requires { limit < 2 ^ 32 }
    ensures bytes { IfOk result (λ bytes. HasFetched limit (F.state shelf.old) name.now bytes.items) }
    ensures unread { IfErr result (IsUnread limit (λ bytes r. ⊥) (F.state shelf.old) (F.state shelf.new) name.now) }
    ensures same { (F.state shelf.new).files ≡ (F.state shelf.old).files }
    ensures rises { (F.state shelf.old).faults name.now ≤ (F.state shelf.new).faults name.now }
    ensures only { TouchesOnly (name.now ∷ []) (F.state shelf.old) (F.state shelf.new) }
{
    let mut bytes = Vec::new(alloc);
    match shelf.fetch(name.as_slice(), limit, &mut bytes) {
        Fetched::All => Ok(bytes),
        Fetched::Failed => Err(Stop::ReadFault(name)),
        Fetched::TooLong => Err(Stop::TooLarge(name)),
        Fetched::Memory => Err(Stop::Memory),
    }
}

/// The source of this name, which is judged by the rules of tokens and of the grammar.
pub fn fetch_source<'a, F: Shelf>(
    alloc: Global,
    name: &'a Word,
    shelf: &mut F,
) -> Result<File, Stop<'a>>
    ensures file { IfOk result (HasFetchedFile (F.state shelf.old) name.now) }
    ensures unread { IfErr result (IsUnread source_limit IsNoText (F.state shelf.old) (F.state shelf.new) name.now) }
    ensures same { (F.state shelf.new).files ≡ (F.state shelf.old).files }
    ensures rises { (F.state shelf.old).faults name.now ≤ (F.state shelf.new).faults name.now }
    ensures only { TouchesOnly (name.now ∷ []) (F.state shelf.old) (F.state shelf.new) }
{
    let bytes = fetch_bytes(alloc, name, SOURCE_LIMIT, shelf)?;
    let file = read(alloc, bytes.as_slice())?;
    Ok(file)
}

/// The source of this name, which is judged by all classes of rules.
pub fn fetch_accepted<'a, R: Threads + Sync, F: Shelf>(
    rt: &R,
    alloc: Global,
    name: &'a Word,
    hosts: &HostTable,
    shelf: &mut F,
) -> Result<Accepted, Stop<'a>>
    ensures accepted { IfOk result (λ accepted. HasFetchedSource All (host_names hosts.now) (F.state shelf.old) name.now accepted.typed.file) }
    ensures hosts { IfOk result (λ accepted. accepted.typed.hosts ≡ host_names hosts.now) }
    ensures words { IfOk result (λ accepted. AreWords accepted.typed.file.names) }
    ensures projects { IfOk result (λ accepted. Projects accepted.typed.file accepted.endpoints) }
    ensures unread { IfErr result (IsUnread source_limit (Violates All (host_names hosts.now)) (F.state shelf.old) (F.state shelf.new) name.now) }
    ensures same { (F.state shelf.new).files ≡ (F.state shelf.old).files }
    ensures rises { (F.state shelf.old).faults name.now ≤ (F.state shelf.new).faults name.now }
    ensures only { TouchesOnly (name.now ∷ []) (F.state shelf.old) (F.state shelf.new) }
{
    accepted_replays::names_are_words();
    let file = fetch_source(alloc, name, shelf)?;
    let accepted = accept(rt, alloc, file, hosts)?;
    Ok(accepted)
}

/// The endpoint programs of the file of this name, which are without a fault.
pub fn fetch_programs<'a, F: Shelf>(
    alloc: Global,
    name: &'a Word,
    hosts: &HostTable,
    shelf: &mut F,
) -> Result<Endpoints, Stop<'a>>
    ensures programs { IfOk result (HasFetchedPrograms (host_names hosts.now) (F.state shelf.old) name.now) }
    ensures unread { IfErr result (IsUnread programs_limit (ViolatesPrograms (host_names hosts.now)) (F.state shelf.old) (F.state shelf.new) name.now) }
    ensures same { (F.state shelf.new).files ≡ (F.state shelf.old).files }
    ensures rises { (F.state shelf.old).faults name.now ≤ (F.state shelf.new).faults name.now }
    ensures only { TouchesOnly (name.now ∷ []) (F.state shelf.old) (F.state shelf.new) }
{
    let bytes = fetch_bytes(alloc, name, PROGRAMS_LIMIT, shelf)?;
    let programs = read_programs(alloc, bytes.as_slice(), hosts)?;
    Ok(programs)
}
