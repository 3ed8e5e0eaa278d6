//! `link`.

ghost use Rattle.std.specs.Prelude.{◌≡◌, ◌≢◌, [], ◌∷◌, IfOk, IfErr};
ghost use Rattle.chor_host.specs.Tables.{functions_of};
ghost use Rattle.endpoint_code.specs.Faults.{IsFaultlessWith};
ghost use Rattle.command_words.specs.declared.options.Options.{Options as AnyOptions};
ghost use Rattle.command_words.specs.declared.words.Command.TheVariants.{Link};
ghost use Rattle.chor_cmd.specs.Linkings.{IsLinkingOf, HasLinked};
ghost use Rattle.chor_cmd.specs.Rows.{row_of};
ghost use Rattle.chor_cmd.specs.Stops.{Answers, HasSaid, IsStop, TouchesOnly};

use crate::ending::{Ending, Stop};
use crate::finishing::{tell_stop, write};
use crate::running::{scheduled_text, tell_by};
use crate::sources::{fetch_accepted, fetch_programs};
use crate::status::Status;
use accepted_links::{link_accepted, refusal_line};
use chor_base::{Memory, Word};
use chor_host::HostTable;
use chor_io::{Gate, Shelf, Sink};
use command_words::Options;
use endpoint_code::Endpoints;
use endpoint_link::LinkFault;
use simulation::Accepted;
use std::alloc::Global;
use std::sync::Wait;
use std::thread::Threads;

// What is made of a source and given endpoint programs.
#[derive(Drop)]
enum Linking {
    // The source, with the given programs in the places of its own.
    Linked(Accepted),
    // The line of the first given unit that doesn't suit its place.
    Unsuited(Vec<u8>),
}

/// Writes the transcript of the scheduled run of the source of the first name, linked with the endpoint
/// programs of the second. The second file is read only where the first violates no rule.
pub fn link<'a, R: Threads + Sync, F: Shelf>(
    rt: &R,
    alloc: Global,
    file: &'a Word,
    programs: &'a Word,
    options: Options,
    hosts: &HostTable,
    shelf: &mut F,
) -> Result<Ending, Stop<'a>>
    ensures answers { Answers (functions_of hosts.now) (Link options) (file.now ∷ programs.now ∷ []) (F.state shelf.old) (F.state shelf.new) result }
    ensures only { TouchesOnly (file.now ∷ programs.now ∷ []) (F.state shelf.old) (F.state shelf.new) }
{
    let linking = fetch_linked(rt, alloc, file, programs, hosts, shelf)?;
    match linking {
        Linking::Linked(accepted) => {
            let text = scheduled_text(alloc, &accepted, options, hosts);
            drop(accepted);
            let text = text?;
            Ok(Ending {
                text,
                status: Status::Done,
            })
        }
        Linking::Unsuited(line) => Ok(Ending {
            text: line,
            status: Status::Refused,
        }),
    }
}

/// Writes the transcript of such a source's run that workers make, while they make it.
pub fn link_by<R: Threads + Wait + Sync, F: Shelf, K: Sink, G: Gate + Sync>(
    rt: &R,
    alloc: Global,
    names: (&Word, &Word),
    options: Options,
    hosts: &HostTable,
    shelf: &mut F,
    gate: &G,
    out: &mut K,
) -> Status
    requires { options.workers ≢ 0 }
    ensures said { HasSaid (functions_of hosts.now) (Link options) (names.entry.0.now ∷ names.entry.1.now ∷ []) (F.state shelf.old) (F.state shelf.new) (K.state out.old) (K.state out.new) result }
    ensures only { TouchesOnly (names.entry.0.now ∷ names.entry.1.now ∷ []) (F.state shelf.old) (F.state shelf.new) }
{
    match fetch_linked(rt, alloc, names.0, names.1, hosts, shelf) {
        Ok(Linking::Linked(accepted)) => {
            let status = tell_by(rt, alloc, &accepted, options, hosts, gate, out);
            drop(accepted);
            status
        }
        Ok(Linking::Unsuited(line)) => write(out, line.as_slice(), Status::Refused),
        Err(stop) => tell_stop(alloc, out, &stop),
    }
}

// The source of the first name, linked with the endpoint programs of the second.
fn fetch_linked<'a, R: Threads + Sync, F: Shelf>(
    rt: &R,
    alloc: Global,
    file: &'a Word,
    programs: &'a Word,
    hosts: &HostTable,
    shelf: &mut F,
) -> Result<Linking, Stop<'a>>
    ensures linked { IfOk result (HasLinked (functions_of hosts.now) (F.state shelf.old) file.now programs.now) }
    ensures stops { IfErr result (λ stop. (options : AnyOptions)
        → IsStop (row_of (functions_of hosts.now) (Link options)) (file.now ∷ programs.now ∷ []) (F.state shelf.old) (F.state shelf.new) stop) }
    ensures only { TouchesOnly (file.now ∷ programs.now ∷ []) (F.state shelf.old) (F.state shelf.new) }
{
    let accepted = fetch_accepted(rt, alloc, file, hosts, shelf)?;
    match fetch_programs(alloc, programs, hosts, shelf) {
        Ok(given) => {
            let linking = linking_of(alloc, accepted, &given);
            drop(given);
            let linking = linking?;
            Ok(linking)
        }
        Err(stop) => {
            drop(accepted);
            Err(stop)
        }
    }
}

// What is made of an accepted source and given programs.
fn linking_of(alloc: Global, accepted: Accepted, given: &Endpoints) -> Result<Linking, Memory>
    requires { IsFaultlessWith accepted.typed.hosts given.now }
    ensures { IfOk result (IsLinkingOf accepted given.now) }
{
    match link_accepted(alloc, accepted, given) {
        Ok(linked) => Ok(Linking::Linked(linked)),
        Err(LinkFault::Refused(rule, unit)) => {
            let line = refusal_line(alloc, given, rule, unit)?;
            Ok(Linking::Unsuited(line))
        }
        Err(LinkFault::Memory) => Err(Memory),
    }
}
