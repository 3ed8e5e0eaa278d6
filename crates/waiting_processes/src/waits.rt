//! What a process waits for, and what an event changes of it.

ghost use Rattle.std.specs.Prelude.{◌≡◌};
ghost use Rattle.waiting_processes.specs.Waits.{awaited_by, touched_by};

use chor_base::NameId;
use endpoint_machine::Head;

/// What a process may wait for.
#[derive(Clone, Copy, PartialEq, Eq, Hash)]
pub enum Awaited {
    /// A load on the queue of a session from one role to another, or room on it.
    Queue(u32, NameId, NameId),
    /// Partners that join a channel.
    Channel(NameId),
}

/// What a process may wait for at a head, where queues have this capacity.
pub fn awaited_by(capacity: Option<u32>, head: Head) -> Option<Awaited>
    ensures { result ≡ awaited_by capacity head }
{
    match head {
        Head::Take(sid, from, to) => Some(Awaited::Queue(sid, from, to)),
        Head::Join(channel, _) => Some(Awaited::Channel(channel)),
        Head::Out(sid, from, to) if capacity.is_some() => Some(Awaited::Queue(sid, from, to)),
        _ => None,
    }
}

/// What others may wait for that an event at a head changes.
pub fn touched_by(head: Head) -> Option<Awaited>
    ensures { result ≡ touched_by head }
{
    match head {
        Head::Out(sid, from, to) => Some(Awaited::Queue(sid, from, to)),
        _ => awaited_by(None, head),
    }
}
