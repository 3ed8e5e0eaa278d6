//! `conform`.

ghost use Rattle.std.specs.Prelude.{◌≡◌, ◌≤◌, ◌^◌, ◌∷◌, [], List, ℕ, IfOk, IfErr, length};
ghost use Rattle.chor_host.specs.Functions.{Function, names_of};
ghost use Rattle.chor_host.specs.Tables.{functions_of};
ghost use Rattle.event_reader.specs.Known.{AreWords};
ghost use Rattle.conforming_logs.specs.Logs.{IsJudgeable};
ghost use Rattle.command_words.specs.declared.words.Command.TheVariants.{Conform};
ghost use Rattle.source_check.specs.declared.rules.Rules.TheVariants.{Views};
ghost use Rattle.source_check.specs.Source.{IsAccepted, Violates};
ghost use Rattle.chor_cmd.specs.Endings.{host_names};
ghost use Rattle.chor_cmd.specs.Outputs.{conforms_line};
ghost use Rattle.chor_cmd.specs.Rows.{Conforms, source_limit, after_events};
ghost use Rattle.chor_cmd.specs.Stops.{Answers, AnswersByRow, HasFetchedSource, IsUnread, TouchesOnly};

use crate::ending::{Ending, Stop};
use crate::replaying::unmatched_line;
use crate::sources::{EVENTS_LIMIT, fetch_bytes, fetch_source};
use crate::status::Status;
use chor_base::{Memory, Word, put_bytes, put_number};
use chor_host::HostTable;
use chor_io::Shelf;
use chor_tree::File;
use conforming_logs::conform_log;
use replay::ReplayFault;
use source_check::check;
use std::alloc::Global;

/// Judges the events of the second file by the protocols of the source of the first name. The second
/// file is read only where the names, the protocols and the views of the first have no fault.
pub fn conform_events<'a, F: Shelf>(
    alloc: Global,
    file: &'a Word,
    events: &'a Word,
    hosts: &HostTable,
    shelf: &mut F,
) -> Result<Ending, Stop<'a>>
    ensures answers { Answers (functions_of hosts.now) Conform (file.now ∷ events.now ∷ []) (F.state shelf.old) (F.state shelf.new) result }
    ensures only { TouchesOnly (file.now ∷ events.now ∷ []) (F.state shelf.old) (F.state shelf.new) }
{
    let source = fetch_viewed(alloc, file, hosts, shelf)?;
    let ending = conform_on(alloc, &source, events, shelf);
    drop(source);
    ending
}

// The source of this name, whose names, protocols and views have no fault.
fn fetch_viewed<'a, F: Shelf>(
    alloc: Global,
    name: &'a Word,
    hosts: &HostTable,
    shelf: &mut F,
) -> Result<File, Stop<'a>>
    ensures viewed { IfOk result (HasFetchedSource Views (host_names hosts.now) (F.state shelf.old) name.now) }
    ensures words { IfOk result (λ file. AreWords file.names) }
    ensures judgeable { IfOk result IsJudgeable }
    ensures unread { IfErr result (IsUnread source_limit (Violates Views (host_names hosts.now)) (F.state shelf.old) (F.state shelf.new) name.now) }
    ensures same { (F.state shelf.new).files ≡ (F.state shelf.old).files }
    ensures rises { (F.state shelf.old).faults name.now ≤ (F.state shelf.new).faults name.now }
    ensures only { TouchesOnly (name.now ∷ []) (F.state shelf.old) (F.state shelf.new) }
{
    accepted_replays::names_are_words();
    let file = fetch_source(alloc, name, shelf)?;
    check(alloc, &file, hosts)?;
    Ok(file)
}

// Judges the events of a file by the protocols of this source.
fn conform_on<'a, F: Shelf>(
    alloc: Global,
    source: &File,
    events: &'a Word,
    shelf: &mut F,
) -> Result<Ending, Stop<'a>>
    requires words { AreWords source.now.names }
    requires judgeable { IsJudgeable source.now }
    ensures answers { (functions : List Function) (bytes : List ℕ) → IsAccepted Views (names_of functions) bytes source.now
        → AnswersByRow (after_events (Conforms functions bytes)) (events.now ∷ []) (F.state shelf.old) (F.state shelf.new) result }
    ensures only { TouchesOnly (events.now ∷ []) (F.state shelf.old) (F.state shelf.new) }
{
    let log = fetch_bytes(alloc, events, EVENTS_LIMIT, shelf)?;
    let ending = conform_bytes(alloc, source, log.as_slice())?;
    Ok(ending)
}

// Judges the events of a file with these bytes.
fn conform_bytes(alloc: Global, source: &File, log: &[u8]) -> Result<Ending, Memory>
    requires words { AreWords source.now.names }
    requires judgeable { IsJudgeable source.now }
    requires few { length log.now ≤ 2 ^ 26 }
    ensures { IfOk result (λ ending. (functions : List Function) (bytes : List ℕ) → IsAccepted Views (names_of functions) bytes source.now
        → Conforms functions bytes log.now ending.status ending.text.items) }
{
    match conform_log(alloc, source, log) {
        Ok(replayed) => {
            let text = conforms_line(alloc, replayed.count)?;
            Ok(Ending {
                text,
                status: Status::Done,
            })
        }
        Err(ReplayFault::Unmatched(line)) => {
            let text = unmatched_line(alloc, line)?;
            Ok(Ending {
                text,
                status: Status::Unmatched,
            })
        }
        Err(ReplayFault::Memory) => Err(Memory),
    }
}

fn conforms_line(alloc: Global, count: u64) -> Result<Vec<u8>, Memory>
    ensures { IfOk result (λ line. line.items ≡ conforms_line count) }
{
    let mut line = b"conforms ".to_vec(alloc)?;
    put_number(&mut line, alloc, count)?;
    put_bytes(&mut line, b"\n".as_slice())?;
    Ok(line)
}
