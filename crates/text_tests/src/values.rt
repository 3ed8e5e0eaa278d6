//! What no command shows of values and events.

use chor_base::{BinOp, Entry, Event, Expr, List, Memory, NameId, Value, Vars, eval};
use std::alloc::Global;
use std::process::Abort;
use std::test::Fail;

// Whether an event is the start of session 4 on channel 1 with one part.
fn is_that_start(event: &Event) -> bool {
    match event {
        Event::Start {
            channel: NameId(1),
            sid: 4,
            parts,
        } => parts.as_slice() == [(NameId(2), 9)].as_slice(),
        _ => false,
    }
}

fn that_start(alloc: Global) -> Result<Event, Fail> {
    let mut parts = List::new(alloc);
    parts.push((NameId(2), 9))?;
    Ok(Event::Start {
        channel: NameId(1),
        sid: 4,
        parts,
    })
}

// The same event, out of a copy of a list of it alone.
fn event_copied(rt: &impl Abort, alloc: Global, event: Event) -> Result<Event, Fail> {
    let mut events = List::new(alloc);
    events.push(event)?;
    let copied = events.copy(alloc)?;
    drop(events);
    assert_eq!(rt; copied.len(), 1);
    let event = copied.at(0).copy(alloc)?;
    Ok(event)
}

// The same entry, out of a copy of a list of it alone.
fn entry_copied(rt: &impl Abort, alloc: Global, entry: Entry) -> Result<Entry, Fail> {
    let mut entries = List::new(alloc);
    entries.push(entry)?;
    let copied = entries.copy(alloc)?;
    drop(entries);
    assert_eq!(rt; copied.len(), 1);
    let entry = copied.at(0).copy(alloc)?;
    Ok(entry)
}

#[test]
fn events_are_copied(rt: HostRuntime) -> Result<(), Fail> {
    let alloc = rt.alloc();
    let event = event_copied(&rt, alloc, that_start(alloc)?)?;
    let entry = entry_copied(&rt, alloc, Entry { worker: 3, event })?;
    assert_eq!(rt; entry.worker, 3);
    assert!(rt; is_that_start(&entry.event));
    Ok(())
}

#[test]
fn want_of_memory_has_a_text(rt: HostRuntime) -> Result<(), Fail> {
    let text = format!(in rt.alloc(); "{Memory}")?;
    assert_eq!(rt; text.as_str(), "out of memory");
    Ok(())
}

// Whether two literals are the same, as the operator says.
fn are_same(alloc: Global, left: Value, right: Value) -> Result<bool, Fail> {
    let left = Box::new(alloc, Expr::Lit(left))?;
    let right = Box::new(alloc, Expr::Lit(right))?;
    let value = eval(&Expr::Bin(BinOp::Eq, left, right), &Vars::new(alloc));
    Ok(value == Value::Bool(true))
}

// No expression of a source has one of these as its value.
#[test]
fn roles_of_sessions_are_compared(rt: HostRuntime) -> Result<(), Fail> {
    let alloc = rt.alloc();
    let part = Value::Part(1, NameId(2));
    assert!(rt; are_same(alloc, part, part)?);
    assert!(rt; !are_same(alloc, part, Value::Part(1, NameId(3)))?);
    Ok(())
}
