//! Events that workers make by themselves, outside their turns.

ghost use Rattle.std.specs.Prelude.{◌≤◌};
ghost use Rattle.chor_host.specs.Functions.{names_of};
ghost use Rattle.chor_host.specs.Tables.{functions_of};
ghost use Rattle.endpoint_code.specs.Faults.{IsFaultlessWith};

use crate::gates::{BothGates, CountGate, HoldGate};
use crate::programs::{functions, read};
use chor_base::{Entry, Event, Memory};
use chor_host::HostTable;
use chor_io::OpenGate;
use endpoint_code::Endpoints;
use endpoint_runs::{Closed, Schedule, run_stepwise};
use office_runs::office_of;
use std::alloc::Global;
use std::sync::Wait;
use std::test::Fail;
use std::thread::Threads;
use worked::endpoints::EXAMPLES;
use workers::run_workers;

// Two processes that each ask ten times.
const ASKING: &[u8] = b"endpoints 1;
process p { host x min(1, 2); host x max(x, 3); host x min(x, 2); host x max(x, 4); host x min(x, 3);
  host x max(x, 5); host x min(x, 4); host x max(x, 6); host x min(x, 5); host x max(x, 7); end }
process q { host y gap(9, 1); host y gap(y, 1); host y gap(y, 1); host y gap(y, 1); host y gap(y, 1);
  host y gap(y, 1); host y gap(y, 1); host y gap(y, 1); host y gap(y, 1); host y gap(y, 1); end }
";

const SHOWING: &[u8] = b"endpoints 1;
process p { show 1; show 2; show 3; show 4; show 5; show 6; show 7; show 8; show 9; show 10; end }
";

// Both processes have ended after the start.
const MEETING: &[u8] = b"endpoints 1;
channel a (A, B);
process p { join a[A](k); end }
process q { join a[B](k); end }
";

// Of two workers the first owns p, and the second q and s. q waits for p's start, while s goes on by itself.
const TAKEN: &[u8] = b"endpoints 1;
channel a (A, B);
procedure Alone s () { show 1; call Alone s () }
process p { join a[A](k); send k B 1; end }
process q { join a[B](k); recv k A x; end }
process r { end }
process s { call Alone s () }
";

// Two processes that go on for ever by themselves, and two that exchange messages for ever.
const BUSY: &[u8] = b"endpoints 1;
channel a (A, B);
procedure First p () { show 1; call First p () }
procedure Second q () { show 2; call Second q () }
procedure Left r (k) { send k B 1; recv k B x; call Left r (k) }
procedure Right s (k) { recv k A x; send k A 2; call Right s (k) }
process p { call First p () }
process q { call Second q () }
process r { join a[A](k); call Left r (k) }
process s { join a[B](k); call Right s (k) }
";

// Whether an office takes these events, one after another.
fn are_run(
    alloc: Global,
    endpoints: &Endpoints,
    hosts: &HostTable,
    history: &[Entry],
) -> Result<bool, Memory>
    requires { IsFaultlessWith (names_of (functions_of hosts.now)) endpoints.now }
{
    let mut events = Vec::new(alloc);
    for entry in history {
        events.push(entry.event.copy(alloc)?)?;
    }
    Ok(office_of(alloc, endpoints, hosts, None, events.as_slice())?.is_some())
}

// How many of the events a process makes by itself or by a message.
fn events_of(history: &[Entry], process: u32) -> usize {
    history
        .iter()
        .filter(|entry| is_made_by(entry, process))
        .count()
}

// Whether a process makes an event by itself or by a message.
fn is_made_by(entry: &Entry, process: u32) -> bool {
    match entry.event {
        Event::Send { pid, .. } | Event::Recv { pid, .. } => pid == process,
        Event::Test { pid, .. } | Event::Set { pid, .. } => pid == process,
        Event::Show { pid, .. } | Event::Host { pid, .. } => pid == process,
        Event::Start { .. } => false,
    }
}

#[test]
fn two_workers_ask_host_functions(rt: HostRuntime) -> Result<(), Fail> {
    let hosts = functions(rt.alloc())?;
    let endpoints = read(&rt, rt.alloc(), &hosts, ASKING)?;
    let told = run_workers(&rt, rt.alloc(), &endpoints, &hosts, None, 2, 100, &OpenGate)?;
    let history = told.history.as_slice();
    assert!(&rt; told.close == Closed::Ended && history.len() == 20);
    assert!(&rt; events_of(history, 0) == 10 && events_of(history, 1) == 10);
    assert!(&rt; are_run(rt.alloc(), &endpoints, &hosts, history)?);
    Ok(())
}

#[test]
fn events_are_noted_together(rt: HostRuntime) -> Result<(), Fail> {
    let hosts = functions(rt.alloc())?;
    let endpoints = read(&rt, rt.alloc(), &hosts, SHOWING)?;
    let gate = CountGate::new();
    let told = run_workers(&rt, rt.alloc(), &endpoints, &hosts, None, 1, 100, &gate)?;
    assert!(&rt; told.close == Closed::Ended && told.history.len() == 10);
    assert!(&rt; gate.asked() <= 3);
    Ok(())
}

#[test]
fn a_run_that_ends_at_the_limit_has_ended(rt: HostRuntime) -> Result<(), Fail> {
    let hosts = functions(rt.alloc())?;
    let endpoints = read(&rt, rt.alloc(), &hosts, MEETING)?;
    for workers in [1, 2, 3] {
        let told = run_workers(
            &rt,
            rt.alloc(),
            &endpoints,
            &hosts,
            None,
            workers,
            1,
            &OpenGate,
        )?;
        assert!(&rt;
            told.close == Closed::Ended && told.history.len() == 1,
            "{workers}"
        );
    }
    Ok(())
}

// The first worker's first turn comes after the second worker's, and the second worker's second turn after
// that, in which q is taken.
#[test]
fn a_start_takes_a_process_whose_worker_has_events_to_note(rt: HostRuntime) -> Result<(), Fail> {
    let hosts = functions(rt.alloc())?;
    let endpoints = read(&rt, rt.alloc(), &hosts, TAKEN)?;
    let gate = BothGates {
        first: HoldGate::new((1, 0), (2, 1)),
        second: HoldGate::new((2, 1), (1, 1)),
    };
    let told = run_workers(&rt, rt.alloc(), &endpoints, &hosts, None, 2, 3000, &gate)?;
    let history = told.history.as_slice();
    assert!(&rt; !gate.first.ran_out() && !gate.second.ran_out());
    assert!(&rt; told.close == Closed::Limit && history.len() == 3000);
    let Some(start) = history
        .iter()
        .position(|entry| matches!(entry.event, Event::Start { .. }))
    else {
        panic!(&rt; "no session has started");
    };
    // what s had made when the first worker took its turn
    assert!(&rt; history[start].worker == 1 && events_of(&history[..start], 3) == 256);
    // q receives after that start, and what s had made meanwhile was noted
    assert!(&rt; events_of(history, 1) == 1 && events_of(history, 3) == 2997);
    assert!(&rt; are_run(rt.alloc(), &endpoints, &hosts, history)?);
    Ok(())
}

// Whether each of the four processes makes events in a run of 5,000 by so many workers.
fn make_events<R: Threads + Wait + Sync>(
    rt: &R,
    alloc: Global,
    endpoints: &Endpoints,
    hosts: &HostTable,
    workers: u32,
) -> Result<bool, Memory>
    requires faultless { IsFaultlessWith (names_of (functions_of hosts.now)) endpoints.now }
    requires workers { (1 ≤ workers) × (workers ≤ 16) }
{
    let told = run_workers(rt, alloc, endpoints, hosts, None, workers, 5000, &OpenGate)?;
    let history = told.history.as_slice();
    if told.close != Closed::Limit || history.len() != 5000 {
        return Ok(false);
    }
    let first = events_of(history, 0) > 0 && events_of(history, 1) > 0;
    Ok(first && events_of(history, 2) > 0 && events_of(history, 3) > 0)
}

// By three workers in one of some runs, since the system may begin a thread when the others have made all events.
#[test]
fn each_process_makes_events(rt: HostRuntime) -> Result<(), Fail> {
    let hosts = functions(rt.alloc())?;
    let endpoints = read(&rt, rt.alloc(), &hosts, BUSY)?;
    assert!(&rt; make_events(&rt, rt.alloc(), &endpoints, &hosts, 1)?);
    for _ in 0..100 {
        if make_events(&rt, rt.alloc(), &endpoints, &hosts, 3)? {
            return Ok(());
        }
    }
    panic!(&rt; "in each run some process made no event");
}

// A run that goes step by step is closed as one by workers, and has as many events.
#[test]
fn workers_come_as_far_as_a_plain_run(rt: HostRuntime) -> Result<(), Fail> {
    let hosts = functions(rt.alloc())?;
    let schedule = Schedule {
        seed: 0,
        steps: 120,
    };
    for (name, text) in &EXAMPLES {
        let endpoints = read(&rt, rt.alloc(), &hosts, text)?;
        let plain = run_stepwise(rt.alloc(), &endpoints, &hosts, None, schedule)?;
        for workers in [1, 2, 3, 16] {
            let told = run_workers(
                &rt,
                rt.alloc(),
                &endpoints,
                &hosts,
                None,
                workers,
                120,
                &OpenGate,
            )?;
            let history = told.history.as_slice();
            assert!(&rt; told.close == plain.closed, "{name}, {workers}");
            assert!(&rt; history.len() == plain.history.len(), "{name}, {workers}");
            assert!(&rt;
                are_run(rt.alloc(), &endpoints, &hosts, history)?,
                "{name}, {workers}"
            );
        }
    }
    Ok(())
}
