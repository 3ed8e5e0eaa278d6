//! Adding the next event to a scan.

ghost use Rattle.std.specs.Prelude.{◌≡◌, map, OnOk};
ghost use Rattle.event_orders.specs.EventKinds.{is_in};
ghost use Rattle.causal_order.specs.Scan.{HasLastAt};
ghost use Rattle.causal_order.specs.Adding.{HasAdded};

use crate::index::Direction;
use crate::scan::Scan;
use chor_base::{Event, Memory, NameId};

// Adds an event of each process that participates in a start.
fn add_to_all(scan: &mut Scan, parts: &[(NameId, u32)], place: u64) -> Result<(), Memory>
    ensures last { OnOk result (HasLastAt scan.old (λ p. is_in p (map (λ q. q.1) parts.now)) place scan.new) }
    ensures others { scan.new ≡ record scan.old { last = scan.new.last } }
{
    for part in parts {
        let (_, pid) = *part;
        scan.add_to(pid, place)?;
    }
    Ok(())
}

/// Adds the next event, with its place.
pub fn add(scan: &mut Scan, event: &Event, place: u64) -> Result<(), Memory>
    ensures { OnOk result (HasAdded scan.old event.now place scan.new) }
{
    match *event {
        Event::Start { ref parts, .. } => {
            add_to_all(scan, parts.as_slice(), place)?;
            scan.start = Some(place);
        }
        Event::Send {
            pid,
            sid,
            from,
            to,
            ..
        } => {
            scan.add_to(pid, place)?;
            scan.sends.add(Direction { sid, from, to }, place)?;
        }
        Event::Recv {
            pid,
            sid,
            from,
            to,
            ..
        } => {
            scan.add_to(pid, place)?;
            scan.receipts.add(Direction { sid, from, to }, place)?;
        }
        Event::Test { pid, .. } => scan.add_to(pid, place)?,
        Event::Set { pid, .. } => scan.add_to(pid, place)?,
        Event::Show { pid, .. } => scan.add_to(pid, place)?,
        Event::Host { pid, .. } => scan.add_to(pid, place)?,
    }
    Ok(())
}
