//! `order`.

ghost use Rattle.std.specs.Prelude.{◌≡◌, ◌≤◌, ◌^◌, ◌∷◌, [], List, ℕ, IfOk, length};
ghost use Rattle.chor_host.specs.Tables.{functions_of};
ghost use Rattle.event_reader.specs.Known.{AreWords};
ghost use Rattle.command_words.specs.declared.words.Command.TheVariants.{Order};
ghost use Rattle.source_check.specs.declared.rules.Rules.TheVariants.{All};
ghost use Rattle.source_check.specs.Source.{IsAccepted};
ghost use Rattle.chor_cmd.specs.Endings.{host_names};
ghost use Rattle.chor_cmd.specs.Outputs.{beyond_line};
ghost use Rattle.chor_cmd.specs.Rows.{Orders, after_events};
ghost use Rattle.chor_cmd.specs.Stops.{Answers, AnswersByRow, TouchesOnly};

use crate::ending::{Ending, Stop};
use crate::replaying::unmatched_line;
use crate::sources::{EVENTS_LIMIT, fetch_accepted, fetch_bytes};
use crate::status::Status;
use accepted_orders::{OrderFault, order_accepted};
use chor_base::{Memory, Word, put_bytes, put_number};
use chor_host::HostTable;
use chor_io::Shelf;
use command_words::OrderForm;
use simulation::Accepted;
use std::alloc::Global;
use std::thread::Threads;

/// Writes what is asked for of the order of the events of the second file on the source of the first name.
/// The second file is read only where the first violates no rule.
pub fn order_events<'a, R: Threads + Sync, F: Shelf>(
    rt: &R,
    alloc: Global,
    file: &'a Word,
    events: &'a Word,
    form: OrderForm,
    hosts: &HostTable,
    shelf: &mut F,
) -> Result<Ending, Stop<'a>>
    ensures answers { Answers (functions_of hosts.now) (Order form) (file.now ∷ events.now ∷ []) (F.state shelf.old) (F.state shelf.new) result }
    ensures only { TouchesOnly (file.now ∷ events.now ∷ []) (F.state shelf.old) (F.state shelf.new) }
{
    let accepted = fetch_accepted(rt, alloc, file, hosts, shelf)?;
    let ending = order_on(alloc, &accepted, events, form, hosts, shelf);
    drop(accepted);
    ending
}

// What is asked for of the order of the events of a file on a source that is accepted with these host functions.
fn order_on<'a, F: Shelf>(
    alloc: Global,
    accepted: &Accepted,
    events: &'a Word,
    form: OrderForm,
    hosts: &HostTable,
    shelf: &mut F,
) -> Result<Ending, Stop<'a>>
    requires hosts { accepted.now.typed.hosts ≡ host_names hosts.now }
    requires words { AreWords accepted.now.typed.file.names }
    ensures answers { (bytes : List ℕ) → IsAccepted All (host_names hosts.now) bytes accepted.now.typed.file
        → AnswersByRow (after_events (Orders (functions_of hosts.now) form bytes)) (events.now ∷ []) (F.state shelf.old) (F.state shelf.new) result }
    ensures only { TouchesOnly (events.now ∷ []) (F.state shelf.old) (F.state shelf.new) }
{
    let log = fetch_bytes(alloc, events, EVENTS_LIMIT, shelf)?;
    let ending = order_log(alloc, accepted, form, hosts, log.as_slice())?;
    Ok(ending)
}

// The same of the events of a file with these bytes.
fn order_log(
    alloc: Global,
    accepted: &Accepted,
    form: OrderForm,
    hosts: &HostTable,
    log: &[u8],
) -> Result<Ending, Memory>
    requires hosts { accepted.now.typed.hosts ≡ host_names hosts.now }
    requires words { AreWords accepted.now.typed.file.names }
    requires few { length log.now ≤ 2 ^ 26 }
    ensures { IfOk result (λ ending. (bytes : List ℕ) → IsAccepted All (host_names hosts.now) bytes accepted.now.typed.file
        → Orders (functions_of hosts.now) form bytes log.now ending.status ending.text.items) }
{
    match order_accepted(alloc, accepted, hosts, accepted.capacity(), form, log) {
        Ok(text) => Ok(Ending {
            text,
            status: Status::Done,
        }),
        Err(OrderFault::Unmatched(line)) => {
            let text = unmatched_line(alloc, line)?;
            Ok(Ending {
                text,
                status: Status::Unmatched,
            })
        }
        Err(OrderFault::Beyond(number)) => {
            let text = beyond_line(alloc, number)?;
            Ok(Ending {
                text,
                status: Status::Refused,
            })
        }
        Err(OrderFault::Memory) => Err(Memory),
    }
}

// By O1, no event has this number.
fn beyond_line(alloc: Global, number: u64) -> Result<Vec<u8>, Memory>
    ensures { IfOk result (λ line. line.items ≡ beyond_line number) }
{
    let mut line = b"refused O1 ".to_vec(alloc)?;
    put_number(&mut line, alloc, number)?;
    put_bytes(&mut line, b"\n".as_slice())?;
    Ok(line)
}
