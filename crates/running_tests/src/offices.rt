//! Offices that are told the events of scheduled runs.

ghost use Rattle.chor_host.specs.Functions.{names_of};
ghost use Rattle.chor_host.specs.Tables.{functions_of};
ghost use Rattle.endpoint_code.specs.Faults.{IsFaultlessWith};

use crate::programs::{are_alike, functions, read};
use chor_base::{Entry, Event, Load, Memory, NameId, Value};
use chor_host::HostTable;
use endpoint_code::Endpoints;
use endpoint_runs::run_endpoints;
use office_runs::office_of;
use post_office::Office;
use std::alloc::Global;
use std::process::Abort;
use std::test::Fail;
use worked::endpoints::{EXAMPLES, HELLO, TWICE};

// How many events a run has at most.
const STEPS: u64 = 120;

// The events of entries.
fn events_of(alloc: Global, entries: &[Entry]) -> Result<Vec<Event>, Memory> {
    let mut events = Vec::new(alloc);
    for entry in entries {
        events.push(entry.event.copy(alloc)?)?;
    }
    Ok(events)
}

// What stands in an office of a run's first events: whether its history is these, and of its first
// session what A has sent B first, whether that queue is full, and the start that the first process has
// to take over.
#[derive(Clone, Copy)]
struct Found {
    is_same: bool,
    sent: Option<Load>,
    is_full: bool,
    joined: Option<u32>,
}

// What stands in an office after so many events of a run.
fn seen_in(
    alloc: Global,
    endpoints: &Endpoints,
    office: &Office<'_>,
    entries: &[Entry],
) -> Result<Found, Memory> {
    let is_same = are_alike(alloc, endpoints, office.history(), entries)?;
    let from = endpoints.names.find(b"A").unwrap_or(NameId(0));
    let to = endpoints.names.find(b"B").unwrap_or(NameId(0));
    Ok(Found {
        is_same,
        sent: office.first(0, from, to),
        is_full: office.full(0, from, to),
        joined: office.joined(0),
    })
}

// Which office is looked at: of how many events of the run with which seed, with queues of which capacity.
#[derive(Clone, Copy)]
struct Asked {
    seed: u32,
    capacity: Option<u32>,
    count: usize,
}

// What stands in the office that is told these events, if it takes them.
fn told(
    alloc: Global,
    hosts: &HostTable,
    endpoints: &Endpoints,
    capacity: Option<u32>,
    entries: &[Entry],
) -> Result<Option<Found>, Memory>
    requires { IsFaultlessWith (names_of (functions_of hosts.now)) endpoints.now }
{
    let events = events_of(alloc, entries)?;
    match office_of(alloc, endpoints, hosts, capacity, events.as_slice())? {
        Some(office) => Ok(Some(seen_in(alloc, endpoints, &office, entries)?)),
        None => Ok(None),
    }
}

// The same of the first events of a run of these programs: of all of its events, where there are fewer.
fn look(rt: &impl Abort, alloc: Global, text: &[u8], asked: Asked) -> Result<Option<Found>, Fail> {
    let hosts = functions(alloc)?;
    let endpoints = read(rt, alloc, &hosts, text)?;
    let ran = run_endpoints(alloc, &endpoints, &hosts, u64::from(asked.seed), STEPS)?;
    let history = ran.history.as_slice();
    let entries = &history[..asked.count.min(history.len())];
    Ok(told(alloc, &hosts, &endpoints, asked.capacity, entries)?)
}

// An office is told a whole run with this seed.
fn is_told(rt: &impl Abort, alloc: Global, text: &[u8], seed: u32) -> Result<(), Fail> {
    let asked = Asked {
        seed,
        capacity: None,
        count: 120,
    };
    let Some(found) = look(rt, alloc, text, asked)? else {
        panic!(rt; "it takes no event with seed {seed}");
    };
    assert!(rt; found.is_same && !found.is_full, "with seed {seed}");
    Ok(())
}

#[test]
fn offices_have_the_events_that_they_are_told(rt: HostRuntime) -> Result<(), Fail> {
    for (_, text) in &EXAMPLES {
        for seed in 0..5 {
            is_told(&rt, rt.alloc(), text, seed)?;
        }
    }
    Ok(())
}

// What the office of the first events of hello has.
fn hello_has(
    rt: &impl Abort,
    alloc: Global,
    count: usize,
    sent: Option<Load>,
    joined: Option<u32>,
) -> Result<(), Fail> {
    let asked = Asked {
        seed: 0,
        capacity: None,
        count,
    };
    let Some(found) = look(rt, alloc, HELLO, asked)? else {
        panic!(rt; "it takes no {count} events");
    };
    assert!(rt; found.is_same && !found.is_full, "{count}");
    assert!(rt; found.sent == sent && found.joined == joined, "{count}");
    Ok(())
}

// Of `1 start a #0 A=p B=q`, `2 send p #0 A>B 3` and `3 recv q #0 A>B 3`.
#[test]
fn the_queue_and_the_start_of_hello(rt: HostRuntime) -> Result<(), Fail> {
    let three = Some(Load::Value(Value::Int(3)));
    hello_has(&rt, rt.alloc(), 0, None, None)?;
    hello_has(&rt, rt.alloc(), 1, None, Some(0))?;
    hello_has(&rt, rt.alloc(), 2, three, Some(0))?;
    hello_has(&rt, rt.alloc(), 3, None, Some(0))
}

// Whether the queue is full after so many events of two messages, or nothing where they are not taken.
fn twice_is(
    rt: &impl Abort,
    alloc: Global,
    asked: (u32, Option<u32>, usize),
    is_full: Option<bool>,
) -> Result<(), Fail> {
    let (seed, capacity, count) = asked;
    let asked = Asked {
        seed,
        capacity,
        count,
    };
    match look(rt, alloc, TWICE, asked)? {
        Some(found) => assert!(rt; found.is_same && is_full == Some(found.is_full), "{count}"),
        None => assert!(rt; is_full.is_none(), "{count}"),
    }
    Ok(())
}

// With seed 0 the second send comes before the first receipt, with seed 1 after it.
#[test]
fn a_queue_is_full_at_its_capacity(rt: HostRuntime) -> Result<(), Fail> {
    twice_is(&rt, rt.alloc(), (0, Some(1), 1), Some(false))?;
    twice_is(&rt, rt.alloc(), (0, Some(1), 2), Some(true))?;
    twice_is(&rt, rt.alloc(), (0, Some(1), 3), None)?;
    twice_is(&rt, rt.alloc(), (0, Some(2), 3), Some(true))?;
    twice_is(&rt, rt.alloc(), (0, None, 3), Some(false))?;
    twice_is(&rt, rt.alloc(), (1, Some(1), 5), Some(false))
}
