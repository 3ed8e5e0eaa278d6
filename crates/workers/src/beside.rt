//! Workers beside a printer.

ghost use Rattle.std.specs.Prelude.{◌≡◌, ◌≤◌, [], IfOk, OnErr};
ghost use mathlib.Core.List.{IsPrefix};
ghost use Rattle.chor_host.specs.Functions.{names_of};
ghost use Rattle.chor_host.specs.Tables.{functions_of};
ghost use Rattle.chor_stream.specs.Ends.{feed_ring, printer_ring, pushed_of, taken_by};
ghost use Rattle.chor_stream.specs.Lines.{entry_lines, lines_after, Finishes};
ghost use Rattle.endpoint_code.specs.Faults.{IsFaultlessWith};
ghost use Rattle.endpoint_code.specs.Network.{NetworkState};
ghost use Rattle.transcript.specs.Books.{words};
ghost use Rattle.turn_lock.specs.Seats.{turn_origin};
ghost use Rattle.workers.specs.Desks.{AreSeated, AreAtWork};
ghost use Rattle.workers.specs.Printing.{Prints, WritesRest, IsToldOf};
ghost use Rattle.workers.specs.Streams.{IsStreamed};
ghost use Rattle.workers.specs.Turns.{LeadsTo, Suits, MayBegin};
ghost use Rattle.workers.specs.Views.{history_of, origin_of, IsKept};

use crate::fed::Fed;
use crate::next::Shared;
use crate::printing::{Flags, print_all};
use crate::programs::Programs;
use crate::run::{SharedRun, Task};
use crate::running::told;
use crate::streamed::Streamed;
use crate::team::Team;
use chor_base::{Entry, Memory};
use chor_host::HostTable;
use chor_io::{Gate, Sink};
use chor_stream::{Drained, Feed, Finished, Printer, stream};
use endpoint_code::Endpoints;
use std::alloc::Global;
use std::sync::Wait;
use std::thread::{Threads, join_mut};
use transcript::Book;

// How many events the ring holds.
const SLOTS: u32 = 1024;

/// Makes a run of endpoint programs by so many workers, as [`run_workers`](crate::run_workers) does, and
/// writes the lines of its events meanwhile, with the words of this book, by the thread that calls. The
/// last line, which tells how the run is closed, is left to the caller. Where writing failed, or memory
/// ran out, a prefix of the lines of a run was written. The call waits until all workers have ended.
pub fn run_workers_to<R: Threads + Wait + Sync, G: Gate + Sync, K: Sink>(
    rt: &R,
    alloc: Global,
    endpoints: &Endpoints,
    hosts: &HostTable,
    capacity: Option<u32>,
    workers: u32,
    steps: u64,
    gate: &G,
    book: &Book<'_>,
    out: &mut K,
) -> Streamed
    requires faultless { IsFaultlessWith (names_of (functions_of hosts.now)) endpoints.now }
    requires workers { (1 ≤ workers) × (workers ≤ 16) }
    requires steps { steps ≤ 1000000 }
    ensures streamed { IsStreamed (words book.now) (functions_of hosts.now) capacity workers steps endpoints.now (K.state out.old) (K.state out.new) result }
    ensures rises { (K.state out.old).faults ≤ (K.state out.new).faults }
{
    let task = Task { workers, steps };
    let Ok(run) = SharedRun::new(alloc, endpoints, hosts, capacity, task) else {
        return Streamed::Memory;
    };
    match print_run(rt, alloc, run, workers, endpoints, hosts, gate, book, out) {
        Ok((run, finished)) => tell(alloc, &run, finished),
        Err(_) => Streamed::Memory,
    }
}

// Makes a run by workers while its lines are written. After an error nothing was written.
fn print_run<
    T: Shared + Send + Drop,
    R: Threads + Wait + Sync,
    G: Gate + Sync,
    P: Programs + Sync,
    K: Sink,
>(
    rt: &R,
    alloc: Global,
    run: T,
    workers: u32,
    programs: &P,
    hosts: &HostTable,
    gate: &G,
    book: &Book<'_>,
    out: &mut K,
) -> Result<(T, Finished), Memory>
    requires workers { (1 ≤ workers) × (workers ≤ 16) }
    requires fresh { T.history run ≡ [] }
    requires suits { Suits (P.are programs.now) (functions_of hosts.now) (T.about (T.origin run)) }
    requires begins { MayBegin (P.are programs.now) workers (T.about (T.origin run)) }
    ensures origin { IfOk result (λ done. T.origin done.0 ≡ T.origin run) }
    ensures lines { IfOk result (λ done. Finishes done.1 (K.state out.old) (K.state out.new) (entry_lines (words book.now) 1 (T.history done.0))) }
    ensures nothing { OnErr result (K.state out.new ≡ K.state out.old) }
    ensures rises { (K.state out.old).faults ≤ (K.state out.new).faults }
{
    let (feed, mut printer) = stream(alloc, SLOTS)?;
    let mut team = Team::new(alloc, Fed { run, feed }, workers, programs.endpoints())?;
    let drained = work_beside(
        rt,
        &mut team,
        programs,
        hosts,
        gate,
        &mut printer,
        book,
        out,
    );
    let Fed { run, feed } = team.close();
    let rest = Rest {
        printer,
        feed,
        drained,
    };
    let finished = print_rest(rest, run.entries(), book, out);
    Ok((run, finished))
}

// The workers work in a thread of their own, or last where none can be made, and the printer prints in
// this one.
fn work_beside<
    T: Shared + Send + Drop,
    R: Threads + Wait + Sync,
    G: Gate + Sync,
    P: Programs + Sync,
    K: Sink,
>(
    rt: &R,
    team: &mut Team<T>,
    programs: &P,
    hosts: &HostTable,
    gate: &G,
    printer: &mut Printer,
    book: &Book<'_>,
    out: &mut K,
) -> Drained
    requires suits { Suits (P.are programs.now) (functions_of hosts.now) (T.about (turn_origin T.origin team.old.turn)) }
    requires seats { AreSeated T.origin team.old.turn team.old.desks.items }
    requires at_work { AreAtWork T.origin T.about team.old.turn team.old.desks.items }
    ensures seats { AreSeated T.origin team.new.turn team.new.desks.items }
    ensures origin { turn_origin T.origin team.new.turn ≡ turn_origin T.origin team.old.turn }
    ensures ring { printer_ring printer.new ≡ printer_ring printer.old }
    ensures prints { Prints (words book.now) printer.old printer.new (K.state out.old) (K.state out.new) result }
    ensures rises { (K.state out.old).faults ≤ (K.state out.new).faults }
{
    let flags = Flags::new();
    let flags = &flags;
    let mut workers = ||
        requires suits { Suits (P.are programs.now) (functions_of hosts.now) (T.about (turn_origin T.origin team.now.turn)) }
        requires seats { AreSeated T.origin team.now.turn team.now.desks.items }
        requires at_work { AreAtWork T.origin T.about team.now.turn team.now.desks.items }
        ensures seats { AreSeated T.origin team.exit.now.turn team.exit.now.desks.items }
        ensures origin { turn_origin T.origin team.exit.now.turn ≡ turn_origin T.origin team.entry.now.turn }
    {
        flags.begin();
        team.work(rt, programs, hosts, gate);
        flags.end();
    };
    print_beside(rt, &mut workers, printer, book, out, flags)
}

// The printer prints in this thread, beside what is called in another.
fn print_beside<R: Threads + Wait + Sync, F: FnMut() + Send, K: Sink>(
    rt: &R,
    workers: &mut F,
    printer: &mut Printer,
    book: &Book<'_>,
    out: &mut K,
    flags: &Flags,
) -> Drained
    requires { F.pre workers.old }
    ensures workers { F.step workers.old tt workers.new }
    ensures ring { printer_ring printer.new ≡ printer_ring printer.old }
    ensures prints { Prints (words book.now) printer.old printer.new (K.state out.old) (K.state out.new) result }
    ensures rises { (K.state out.old).faults ≤ (K.state out.new).faults }
{
    let (_, drained) = join_mut(
        rt,
        workers,
        &mut || print_all(rt, printer, book, out, flags),
    );
    drained
}

// Both ends of a stream once workers and printer have ended, and what came of printing so far.
struct Rest {
    printer: Printer,
    feed: Feed,
    drained: Drained,
}

// Writes the lines that weren't written yet, unless printing had a fault.
fn print_rest<K: Sink>(rest: Rest, entries: &[Entry], book: &Book<'_>, out: &mut K) -> Finished
    requires pair { feed_ring rest.feed ≡ printer_ring rest.printer }
    requires list { IsPrefix (pushed_of rest.feed) entries.now }
    ensures taken { IsPrefix (taken_by rest.printer) entries.entry.now }
    ensures rest { WritesRest rest.drained result (K.state out.old) (K.state out.new) (lines_after (words book.entry.now) (taken_by rest.printer) entries.entry.now) }
    ensures rises { (K.state out.old).faults ≤ (K.state out.new).faults }
{
    let Rest {
        printer,
        feed,
        drained,
    } = rest;
    match drained {
        Drained::Dry => printer.finish(feed, entries, book, out),
        Drained::Failed => {
            printer.settle(feed, entries);
            Finished::Failed
        }
        Drained::Memory => {
            printer.settle(feed, entries);
            Finished::Memory
        }
    }
}

// What is told of a run whose lines were written so.
fn tell(alloc: Global, run: &SharedRun<'_>, finished: Finished) -> Streamed
    ensures run { (n : NetworkState) × LeadsTo (origin_of run.now) (history_of run.now) n }
    ensures kept { IsKept run.now }
    ensures told { IsToldOf run.now finished result }
{
    // that its events are a run
    let _count = run.history().len();
    match finished {
        Finished::Written => match told(alloc, run) {
            Ok(report) => Streamed::Done(report),
            Err(_) => Streamed::Memory,
        },
        Finished::Failed => Streamed::Failed,
        Finished::Memory => Streamed::Memory,
    }
}
