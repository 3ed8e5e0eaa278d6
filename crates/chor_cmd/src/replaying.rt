//! `replay`.

ghost use Rattle.std.specs.Prelude.{◌≡◌, ◌≤◌, ◌^◌, ◌++◌, ◌∷◌, [], List, ℕ, IfOk, length, codes};
ghost use Rattle.chor_host.specs.Tables.{functions_of};
ghost use Rattle.event_reader.specs.Known.{AreWords};
ghost use Rattle.command_words.specs.declared.words.Command.TheVariants.{Replay};
ghost use Rattle.source_check.specs.declared.rules.Rules.TheVariants.{All};
ghost use Rattle.source_check.specs.Source.{IsAccepted};
ghost use Rattle.chor_cmd.specs.Endings.{host_names};
ghost use Rattle.chor_cmd.specs.Outputs.{replayed_line, unmatched_line, state_word};
ghost use Rattle.chor_cmd.specs.Rows.{Replays, after_events};
ghost use Rattle.chor_cmd.specs.Stops.{Answers, AnswersByRow, TouchesOnly};

use crate::ending::{Ending, Stop};
use crate::sources::{EVENTS_LIMIT, fetch_accepted, fetch_bytes};
use crate::status::Status;
use accepted_replays::replay_accepted;
use chor_base::{Memory, Word, put_bytes, put_number};
use chor_host::HostTable;
use chor_io::Shelf;
use replay::{ReplayFault, Replayed};
use simulation::Accepted;
use std::alloc::Global;
use std::thread::Threads;

/// Replays the events of the second file on the source of the first name. The second file is read only
/// where the first violates no rule.
pub fn replay_events<'a, R: Threads + Sync, F: Shelf>(
    rt: &R,
    alloc: Global,
    file: &'a Word,
    events: &'a Word,
    hosts: &HostTable,
    shelf: &mut F,
) -> Result<Ending, Stop<'a>>
    ensures answers { Answers (functions_of hosts.now) Replay (file.now ∷ events.now ∷ []) (F.state shelf.old) (F.state shelf.new) result }
    ensures only { TouchesOnly (file.now ∷ events.now ∷ []) (F.state shelf.old) (F.state shelf.new) }
{
    let accepted = fetch_accepted(rt, alloc, file, hosts, shelf)?;
    let ending = replay_on(alloc, &accepted, events, hosts, shelf);
    drop(accepted);
    ending
}

// Replays the events of a file on a source that is accepted with these host functions.
fn replay_on<'a, F: Shelf>(
    alloc: Global,
    accepted: &Accepted,
    events: &'a Word,
    hosts: &HostTable,
    shelf: &mut F,
) -> Result<Ending, Stop<'a>>
    requires hosts { accepted.now.typed.hosts ≡ host_names hosts.now }
    requires words { AreWords accepted.now.typed.file.names }
    ensures answers { (bytes : List ℕ) → IsAccepted All (host_names hosts.now) bytes accepted.now.typed.file
        → AnswersByRow (after_events (Replays (functions_of hosts.now) bytes)) (events.now ∷ []) (F.state shelf.old) (F.state shelf.new) result }
    ensures only { TouchesOnly (events.now ∷ []) (F.state shelf.old) (F.state shelf.new) }
{
    let log = fetch_bytes(alloc, events, EVENTS_LIMIT, shelf)?;
    let ending = replay_log(alloc, accepted, hosts, log.as_slice())?;
    Ok(ending)
}

// Replays the events of a file with these bytes.
fn replay_log(
    alloc: Global,
    accepted: &Accepted,
    hosts: &HostTable,
    log: &[u8],
) -> Result<Ending, Memory>
    requires hosts { accepted.now.typed.hosts ≡ host_names hosts.now }
    requires words { AreWords accepted.now.typed.file.names }
    requires few { length log.now ≤ 2 ^ 26 }
    ensures { IfOk result (λ ending. (bytes : List ℕ) → IsAccepted All (host_names hosts.now) bytes accepted.now.typed.file
        → Replays (functions_of hosts.now) bytes log.now ending.status ending.text.items) }
{
    match replay_accepted(alloc, accepted, hosts, accepted.capacity(), log) {
        Ok(replayed) => {
            let text = replayed_line(alloc, replayed)?;
            Ok(Ending {
                text,
                status: Status::Done,
            })
        }
        Err(ReplayFault::Unmatched(line)) => {
            let text = unmatched_line(alloc, line)?;
            Ok(Ending {
                text,
                status: Status::Unmatched,
            })
        }
        Err(ReplayFault::Memory) => Err(Memory),
    }
}

fn replayed_line(alloc: Global, replayed: Replayed) -> Result<Vec<u8>, Memory>
    ensures { IfOk result (λ line. line.items ≡ replayed_line replayed) }
{
    let mut line = b"replayed ".to_vec(alloc)?;
    put_number(&mut line, alloc, replayed.count)?;
    put_bytes(&mut line, state_word(replayed.ended))?;
    Ok(line)
}

// Whether a run has ended.
fn state_word(ended: bool) -> &'static [u8]
    ensures { result.now ≡ codes " " ++ state_word ended ++ 10 ∷ [] }
{
    if ended {
        b" ended\n".as_slice()
    } else {
        b" open\n".as_slice()
    }
}

/// The line that tells the number of the first line that doesn't match.
pub fn unmatched_line(alloc: Global, number: u64) -> Result<Vec<u8>, Memory>
    ensures { IfOk result (λ line. line.items ≡ unmatched_line number) }
{
    let mut line = b"unmatched ".to_vec(alloc)?;
    put_number(&mut line, alloc, number)?;
    put_bytes(&mut line, b"\n".as_slice())?;
    Ok(line)
}
