//! The causes of the next event, found by a scan of those before it.

ghost use Rattle.std.specs.Prelude.{ℕ, ◌≡◌, ◌++◌, ◌↔◌, map, Contains, option_to_list, IfOk, OnOk};
ghost use Rattle.std.specs.List.Sorted.{IsStrictlyIncreasing};
ghost use Rattle.chor_base.specs.Events.{actors_of};
ghost use Rattle.causal_order.specs.Index.{triple_of};
ghost use Rattle.causal_order.specs.Found.{last_events, send_of_next, room_of_next, other_cause, causes_found};

use crate::index::Direction;
use crate::scan::Scan;
use chor_base::{Event, List, Memory, NameId};
use std::alloc::Global;

// A list has fewer items than this.
const LIST_LIMIT: usize = 1 << 32;

// How many causes an event other than a start has at most.
const USUAL: usize = 2;

// Adds a place, if it is there.
fn push_some(places: &mut Vec<u64>, place: Option<u64>) -> Result<(), Memory>
    ensures { OnOk result (places.new.items ≡ places.old.items ++ option_to_list place) }
{
    if let Some(place) = place {
        places.push(place)?;
    }
    Ok(())
}

// Adds the last event of each process that participates in a start.
fn push_last_events(
    places: &mut Vec<u64>,
    scan: &Scan,
    parts: &[(NameId, u32)],
) -> Result<(), Memory>
    ensures { OnOk result (places.new.items ≡ places.old.items ++ last_events scan.now (map (λ q. q.1) parts.now)) }
{
    for part in parts {
        let (_, pid) = *part;
        push_some(places, scan.last(pid))?;
    }
    Ok(())
}

// The send of the load that is received next in a direction.
fn send_of_next(scan: &Scan, direction: Direction) -> Option<u64>
    ensures { result ≡ send_of_next scan.now (triple_of direction) }
{
    scan.sends.place(direction, scan.receipts.count(direction))
}

// The receipt that makes room for the load that is sent next in a direction.
fn room_of_next(scan: &Scan, direction: Direction, capacity: Option<u32>) -> Option<u64>
    ensures { result ≡ room_of_next capacity scan.now (triple_of direction) }
{
    let capacity = u64::from(capacity?);
    let count = scan.sends.count(direction);
    if count < capacity {
        return None;
    }
    scan.receipts.place(direction, count - capacity)
}

// Adds the last event of each process that participates in an event.
fn push_last(places: &mut Vec<u64>, scan: &Scan, event: &Event) -> Result<(), Memory>
    ensures { OnOk result (places.new.items ≡ places.old.items ++ last_events scan.now (actors_of event.now)) }
{
    match *event {
        Event::Start { ref parts, .. } => push_last_events(places, scan, parts.as_slice()),
        Event::Send { pid, .. } => push_some(places, scan.last(pid)),
        Event::Recv { pid, .. } => push_some(places, scan.last(pid)),
        Event::Test { pid, .. } => push_some(places, scan.last(pid)),
        Event::Set { pid, .. } => push_some(places, scan.last(pid)),
        Event::Show { pid, .. } => push_some(places, scan.last(pid)),
        Event::Host { pid, .. } => push_some(places, scan.last(pid)),
    }
}

// The cause of the next event besides the last events of its processes.
fn other_cause(scan: &Scan, event: &Event, capacity: Option<u32>) -> Option<u64>
    ensures { result ≡ other_cause capacity scan.now event.now }
{
    match *event {
        Event::Start { .. } => scan.start,
        Event::Send { sid, from, to, .. } => {
            room_of_next(scan, Direction { sid, from, to }, capacity)
        }
        Event::Recv { sid, from, to, .. } => send_of_next(scan, Direction { sid, from, to }),
        _ => None,
    }
}

/// The causes of the next event, in ascending order, each once.
pub fn causes_of(
    alloc: Global,
    scan: &Scan,
    event: &Event,
    capacity: Option<u32>,
) -> Result<List<u64>, Memory>
    ensures ascends { IfOk result (λ list. IsStrictlyIncreasing list) }
    ensures holds { IfOk result (λ list. (i : ℕ) → Contains list i ↔ Contains (causes_found capacity scan.now event.now) i) }
{
    let mut places = Vec::with_capacity(alloc, USUAL)?;
    push_last(&mut places, scan, event)?;
    push_some(&mut places, other_cause(scan, event, capacity))?;
    places.sort_unstable();
    places.dedup();
    if places.len() >= LIST_LIMIT {
        return Err(Memory);
    }
    Ok(List::from_vec(places))
}
