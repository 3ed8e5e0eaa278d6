//! Runs whose lines are written while workers make them.

ghost use Rattle.std.specs.Prelude.{◌≡◌, ◌≤◌, length};

use crate::programs::{functions, lines, read};
use crate::sinks::{Calls, LineGate, SlowSink};
use chor_base::List;
use chor_io::MemorySink;
use endpoint_check::read_programs;
use endpoint_runs::Closed;
use std::alloc::Global;
use std::process::Abort;
use std::sync::Wait;
use std::test::Fail;
use std::thread::Threads;
use transcript::Book;
use worked::endpoints::{ALONE, PURCHASE};
use workers::{Streamed, run_workers_to};

// Two processes that exchange messages for ever: each waits for the other's, so there is one run.
const EXCHANGE: &[u8] = b"endpoints 1;
channel a (A, B);
procedure Left p (k) { send k B 1; recv k B x; call Left p (k) }
procedure Right q (k) { recv k A x; send k A 2; call Right q (k) }
process p { join a[A](k); call Left p (k) }
process q { join a[B](k); call Right q (k) }
";

const FIRST_LINES: &[u8] = b"1 start a #0 A=p B=q
2 send p #0 A>B 1
3 recv q #0 A>B 1
4 send q #0 B>A 2
5 recv p #0 B>A 2
";

// How a test goes: the programs, how many workers make how many events, which writes fail after how many bytes, how many bytes find
// room, how often a write lets others go first, and which turn of the first worker waits for a line.
#[derive(Drop)]
struct Trial {
    text: &'static [u8],
    workers: u32,
    steps: u64,
    fails: List<(u64, u64)>,
    room: u32,
    pauses: u64,
    held: u64,
}

// What was answered and written, how often the sink was called, and whether the turn that waits for a line was passed.
#[derive(Drop)]
struct Outcome {
    streamed: Streamed,
    written: Vec<u8>,
    calls: u64,
    was_passed: bool,
}

// Two workers that exchange messages.
fn exchanging(alloc: Global, steps: u64) -> Trial
    ensures { (result.workers ≡ 2) × (result.steps ≡ steps) }
{
    Trial {
        text: EXCHANGE,
        workers: 2,
        steps,
        fails: List::new(alloc),
        room: 1 << 20,
        pauses: 0,
        held: u64::MAX,
    }
}

fn run_trial<R: Abort + Threads + Wait + Sync>(
    rt: &R,
    alloc: Global,
    trial: Trial,
) -> Result<Outcome, Fail>
    requires { (1 ≤ trial.workers) × (trial.workers ≤ 16) × (trial.steps ≤ 1000000) }
{
    let hosts = functions(alloc)?;
    let endpoints = read(rt, alloc, &hosts, trial.text)?;
    let mut processes = List::new(alloc);
    for process in endpoints.processes.as_slice() {
        processes.push(process.name)?;
    }
    let book = Book {
        names: &endpoints.names,
        texts: &endpoints.texts,
        processes: &processes,
    };
    let calls = Calls::new();
    let gate = LineGate::new(trial.held, &calls);
    let mut sink = SlowSink {
        inner: MemorySink::new(alloc, trial.room, trial.fails)?,
        calls: &calls,
        pauses: trial.pauses,
    };
    let streamed = run_workers_to(
        rt,
        alloc,
        &endpoints,
        &hosts,
        None,
        trial.workers,
        trial.steps,
        &gate,
        &book,
        &mut sink,
    );
    let mut written = Vec::new(alloc);
    written.extend_from_slice(sink.inner.bytes())?;
    Ok(Outcome {
        streamed,
        written,
        calls: calls.count(),
        was_passed: gate.was_passed(),
    })
}

// How the run was closed whose lines were written, and of how many events it is; none where these aren't its lines.
fn told(alloc: Global, text: &[u8], outcome: &Outcome) -> Result<Option<(Closed, usize)>, Fail>
    requires { length text.now ≤ 16777216 }
{
    let Streamed::Done(report) = &outcome.streamed else {
        return Ok(None);
    };
    let hosts = functions(alloc)?;
    let endpoints = read_programs(alloc, text, &hosts)?;
    let wanted = lines(alloc, &endpoints, report.history.as_slice())?;
    if wanted.as_slice() != outcome.written.as_slice() {
        return Ok(None);
    }
    Ok(Some((report.close, report.history.len())))
}

#[test]
fn the_lines_of_the_run_are_written(rt: HostRuntime) -> Result<(), Fail> {
    for workers in [1, 2, 3, 16] {
        let mut trial = exchanging(rt.alloc(), 100);
        trial.text = PURCHASE;
        trial.workers = workers;
        let outcome = run_trial(&rt, rt.alloc(), trial)?;
        let told = told(rt.alloc(), PURCHASE, &outcome)?;
        assert!(&rt; told == Some((Closed::Ended, 20)), "{workers}");
    }
    Ok(())
}

#[test]
fn more_events_than_the_ring_has_slots(rt: HostRuntime) -> Result<(), Fail> {
    let mut trial = exchanging(rt.alloc(), 5000);
    trial.pauses = 1000;
    let outcome = run_trial(&rt, rt.alloc(), trial)?;
    assert!(&rt; outcome.written.as_slice().starts_with(FIRST_LINES));
    assert!(&rt; told(rt.alloc(), EXCHANGE, &outcome)? == Some((Closed::Limit, 5000)));
    Ok(())
}

// A printer that began after the workers have ended would let the first worker look in vain.
#[test]
fn a_turn_waits_for_a_line(rt: HostRuntime) -> Result<(), Fail> {
    let mut trial = exchanging(rt.alloc(), 200);
    trial.held = 4;
    let outcome = run_trial(&rt, rt.alloc(), trial)?;
    assert!(&rt; outcome.was_passed);
    assert!(&rt; told(rt.alloc(), EXCHANGE, &outcome)? == Some((Closed::Limit, 200)));
    Ok(())
}

// The first write is over before the turn that waits for it, so that there is a second one.
#[test]
fn a_failed_write_ends_it(rt: HostRuntime) -> Result<(), Fail> {
    let mut trial = exchanging(rt.alloc(), 200);
    trial.held = 4;
    trial.fails.push((2, 10))?;
    let outcome = run_trial(&rt, rt.alloc(), trial)?;
    assert!(&rt; matches!(outcome.streamed, Streamed::Failed));
    assert!(&rt; outcome.was_passed && outcome.calls == 2);
    assert!(&rt;
        outcome
            .written
            .as_slice()
            .starts_with(b"1 start a #0 A=p B=q\n".as_slice())
    );
    Ok(())
}

#[test]
fn a_full_sink_has_a_prefix(rt: HostRuntime) -> Result<(), Fail> {
    let mut trial = exchanging(rt.alloc(), 200);
    trial.room = 100;
    let outcome = run_trial(&rt, rt.alloc(), trial)?;
    assert!(&rt; matches!(outcome.streamed, Streamed::Failed));
    assert!(&rt; outcome.written.len() == 100);
    assert!(&rt; outcome.written.as_slice().starts_with(FIRST_LINES));
    Ok(())
}

#[test]
fn a_run_with_no_event_writes_nothing(rt: HostRuntime) -> Result<(), Fail> {
    let mut trial = exchanging(rt.alloc(), 7);
    trial.text = ALONE;
    let outcome = run_trial(&rt, rt.alloc(), trial)?;
    assert!(&rt; outcome.calls == 0 && outcome.written.is_empty());
    let Streamed::Done(report) = &outcome.streamed else {
        panic!(&rt; "it isn't done");
    };
    assert!(&rt; report.history.is_empty() && matches!(report.close, Closed::Stuck(0, _)));
    Ok(())
}
