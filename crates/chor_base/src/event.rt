//! What a run is made of.

ghost use Rattle.std.specs.Prelude.{◌≡◌, IfOk};

use crate::list::List;
use crate::memory::Memory;
use crate::names::NameId;
use crate::value::{Load, Value};
use std::alloc::Global;

/// One event of a run. Processes and sessions have the numbers that they were given in the run.
#[derive(Drop)]
pub enum Event {
    /// A session starts on a channel; each role has its process, in the channel's order.
    Start {
        channel: NameId,
        sid: u32,
        parts: List<(NameId, u32)>,
    },
    /// A process sends from its role to another.
    Send {
        pid: u32,
        sid: u32,
        from: NameId,
        to: NameId,
        load: Load,
    },
    /// A process receives in its role `to` what was sent from another.
    Recv {
        pid: u32,
        sid: u32,
        from: NameId,
        to: NameId,
        load: Load,
    },
    /// A process decides a conditional.
    Test {
        pid: u32,
        answer: bool,
    },
    /// A process sets a variable.
    Set {
        pid: u32,
        var: NameId,
        value: Value,
    },
    /// A process shows a value.
    Show {
        pid: u32,
        value: Value,
    },
    /// A process asks a host function and puts the answer into a variable.
    Host {
        pid: u32,
        var: NameId,
        name: NameId,
        left: i64,
        right: i64,
        value: i64,
    },
}

impl Event {
    /// The same event once more.
    pub fn copy(&self, alloc: Global) -> Result<Event, Memory>
        ensures { IfOk result (λ event. event ≡ self.now) }
    {
        let copied = match *self {
            Event::Start {
                channel,
                sid,
                ref parts,
            } => {
                let parts = parts.copy(alloc)?;
                Event::Start {
                    channel,
                    sid,
                    parts,
                }
            }
            Event::Send {
                pid,
                sid,
                from,
                to,
                load,
            } => Event::Send {
                pid,
                sid,
                from,
                to,
                load,
            },
            Event::Recv {
                pid,
                sid,
                from,
                to,
                load,
            } => Event::Recv {
                pid,
                sid,
                from,
                to,
                load,
            },
            Event::Test { pid, answer } => Event::Test { pid, answer },
            Event::Set { pid, var, value } => Event::Set { pid, var, value },
            Event::Show { pid, value } => Event::Show { pid, value },
            Event::Host {
                pid,
                var,
                name,
                left,
                right,
                value,
            } => Event::Host {
                pid,
                var,
                name,
                left,
                right,
                value,
            },
        };
        Ok(copied)
    }
}

impl List<Event> {
    /// The same events once more.
    pub fn copy(&self, alloc: Global) -> Result<List<Event>, Memory>
        ensures { IfOk result (λ list. list ≡ self.now) }
    {
        let mut list = List::new(alloc);
        for event in self.as_slice() {
            list.push(event.copy(alloc)?)?;
        }
        Ok(list)
    }
}

/// An event and the worker that made it; 0 where there are no workers.
#[derive(Drop)]
pub struct Entry {
    pub worker: u32,
    pub event: Event,
}

impl Entry {
    /// The same entry once more.
    pub fn copy(&self, alloc: Global) -> Result<Entry, Memory>
        ensures { IfOk result (λ entry. entry ≡ self.now) }
    {
        let event = self.event.copy(alloc)?;
        Ok(Entry {
            worker: self.worker,
            event,
        })
    }
}

impl List<Entry> {
    /// The same entries once more.
    pub fn copy(&self, alloc: Global) -> Result<List<Entry>, Memory>
        ensures { IfOk result (λ list. list ≡ self.now) }
    {
        let mut list = List::new(alloc);
        for entry in self.as_slice() {
            list.push(entry.copy(alloc)?)?;
        }
        Ok(list)
    }
}

/// Why a process that hasn't ended can't step.
#[derive(Clone, Copy, PartialEq, Eq)]
pub enum Why {
    /// The queue of this session from this role to that one is empty.
    Empty(u32, NameId, NameId),
    /// The first message of the queue isn't of the kind or label that is awaited.
    Wrong(u32, NameId, NameId),
    /// The queue has reached its declared capacity.
    Full(u32, NameId, NameId),
    /// No process joins the channel in this role.
    Absent(NameId, NameId),
}
