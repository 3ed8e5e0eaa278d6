//! `resume`.

ghost use Rattle.std.specs.Prelude.{◌≡◌, ◌∷◌, [], List, ℕ, IfOk, IfErr};
ghost use Rattle.chor_host.specs.Tables.{functions_of};
ghost use Rattle.event_reader.specs.Known.{AreWords};
ghost use Rattle.projection.specs.Projects.{Projects};
ghost use Rattle.command_words.specs.declared.words.Command.TheVariants.{Resume};
ghost use Rattle.source_check.specs.declared.rules.Rules.TheVariants.{All};
ghost use Rattle.source_check.specs.Source.{IsAccepted};
ghost use Rattle.chor_cmd.specs.Endings.{host_names};
ghost use Rattle.chor_cmd.specs.Rows.{Resumes, IsShortLog, after_short_log};
ghost use Rattle.chor_cmd.specs.Stops.{Answers, AnswersByRow, HasFetchedLog, IsUnreadLog, TouchesOnly};

use crate::ending::{Ending, Stop};
use crate::replaying::unmatched_line;
use crate::sources::{EVENTS_LIMIT, fetch_accepted, fetch_bytes};
use crate::status::Status;
use accepted_resumes::resume_accepted;
use chor_base::{Memory, Word};
use chor_host::HostTable;
use chor_io::Shelf;
use command_words::Options;
use endpoint_runs::Schedule;
use event_files::has_few_lines;
use replay::ReplayFault;
use resume::Plan;
use simulation::Accepted;
use std::alloc::Global;
use std::thread::Threads;

// How many whole lines an events file has at most, beside a last one that closes a run of so many events.
const LINES_LIMIT: u64 = 1_000_000;

/// Writes the transcript of the run that begins with the events of the second file and goes on as the
/// options say, of the source of the first name. The second file is read only where the first violates
/// no rule.
pub fn resume_run<'a, R: Threads + Sync, F: Shelf>(
    rt: &R,
    alloc: Global,
    files: (&'a Word, &'a Word),
    options: Options,
    hosts: &HostTable,
    shelf: &mut F,
) -> Result<Ending, Stop<'a>>
    ensures answers { Answers (functions_of hosts.now) (Resume options) (files.entry.0.now ∷ files.entry.1.now ∷ []) (F.state shelf.old) (F.state shelf.new) result }
    ensures only { TouchesOnly (files.entry.0.now ∷ files.entry.1.now ∷ []) (F.state shelf.old) (F.state shelf.new) }
{
    let (file, events) = files;
    let accepted = fetch_accepted(rt, alloc, file, hosts, shelf)?;
    let ending = resume_on(alloc, &accepted, events, options, hosts, shelf);
    drop(accepted);
    ending
}

// Goes on after the events of a file on a source that is accepted with these host functions.
fn resume_on<'a, F: Shelf>(
    alloc: Global,
    accepted: &Accepted,
    events: &'a Word,
    options: Options,
    hosts: &HostTable,
    shelf: &mut F,
) -> Result<Ending, Stop<'a>>
    requires hosts { accepted.now.typed.hosts ≡ host_names hosts.now }
    requires words { AreWords accepted.now.typed.file.names }
    requires projects { Projects accepted.now.typed.file accepted.now.endpoints }
    ensures answers { (bytes : List ℕ) → IsAccepted All (host_names hosts.now) bytes accepted.now.typed.file
        → AnswersByRow (after_short_log (Resumes (functions_of hosts.now) options bytes)) (events.now ∷ []) (F.state shelf.old) (F.state shelf.new) result }
    ensures only { TouchesOnly (events.now ∷ []) (F.state shelf.old) (F.state shelf.new) }
{
    let log = fetch_log(alloc, events, shelf)?;
    let ending = resume_log(alloc, accepted, options, hosts, log.as_slice())?;
    Ok(ending)
}

// The bytes of the events file of this name, which has few lines.
fn fetch_log<'a, F: Shelf>(
    alloc: Global,
    name: &'a Word,
    shelf: &mut F,
) -> Result<Vec<u8>, Stop<'a>>
    ensures log { IfOk result (λ log. HasFetchedLog (F.state shelf.old) name.now log.items) }
    ensures unread { IfErr result (IsUnreadLog (F.state shelf.old) (F.state shelf.new) name.now) }
    ensures only { TouchesOnly (name.now ∷ []) (F.state shelf.old) (F.state shelf.new) }
{
    let log = fetch_bytes(alloc, name, EVENTS_LIMIT, shelf)?;
    if has_few_lines(log.as_slice(), LINES_LIMIT) {
        Ok(log)
    } else {
        Err(Stop::TooLarge(name))
    }
}

// Goes on after the events of a file with these bytes.
fn resume_log(
    alloc: Global,
    accepted: &Accepted,
    options: Options,
    hosts: &HostTable,
    log: &[u8],
) -> Result<Ending, Memory>
    requires hosts { accepted.now.typed.hosts ≡ host_names hosts.now }
    requires words { AreWords accepted.now.typed.file.names }
    requires projects { Projects accepted.now.typed.file accepted.now.endpoints }
    requires short { IsShortLog log.now }
    ensures { IfOk result (λ ending. (bytes : List ℕ) → IsAccepted All (host_names hosts.now) bytes accepted.now.typed.file
        → Resumes (functions_of hosts.now) options bytes log.now ending.status ending.text.items) }
{
    let schedule = Schedule {
        seed: options.seed,
        steps: options.steps,
    };
    let plan = Plan {
        capacity: accepted.capacity(),
        schedule,
    };
    match resume_accepted(alloc, accepted, hosts, plan, log) {
        Ok(text) => Ok(Ending {
            text,
            status: Status::Done,
        }),
        Err(ReplayFault::Unmatched(line)) => {
            let text = unmatched_line(alloc, line)?;
            Ok(Ending {
                text,
                status: Status::Unmatched,
            })
        }
        Err(ReplayFault::Memory) => Err(Memory),
    }
}
