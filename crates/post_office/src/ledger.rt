//! What is kept of a network beside its processes.

ghost use Rattle.std.specs.Prelude.{◌≡◌, ◌<◌, ◌≤◌, ◌+◌, ◌-◌, ◌++◌, ◌∷◌, [], vec_len, vec_capacity, OnOk, IsOk, false};
ghost use Rattle.endpoint_code.specs.Network.{has_room};
ghost use Rattle.post_office.specs.Views.{loads_at};

use crate::queues::Queues;
use chor_base::{Entry, Event, Memory, NameId};
use std::alloc::Global;

/// What is kept of a network beside its processes: the queues, the number of the next session, and
/// the events so far. The number of the next process is how many processes there are.
#[derive(Drop)]
pub struct Ledger {
    /// The messages that were sent and not yet received.
    pub queues: Queues,
    /// How many loads each queue takes at most, if that is declared.
    pub capacity: Option<u32>,
    /// The number of the next session.
    pub sid: u32,
    /// The events so far, each with the worker that made it.
    pub history: Vec<Entry>,
    /// Whether a worker ran out of memory, so that all are to end.
    pub stopped: bool,
}

impl Ledger {
    /// Empty queues, no session and no event yet, and not stopped. It takes no memory.
    pub fn new(alloc: Global, capacity: Option<u32>) -> Ledger
        ensures queues { result.queues.lanes ≡ [] }
        ensures capacity { result.capacity ≡ capacity }
        ensures sid { result.sid ≡ 0 }
        ensures history { result.history.items ≡ [] }
        ensures stopped { result.stopped ≡ false }
    {
        Ledger {
            queues: Queues::new(alloc),
            capacity,
            sid: 0,
            history: Vec::new(alloc),
            stopped: false,
        }
    }

    /// Whether a queue takes one load more: always where no capacity is declared.
    pub fn has_room(&self, sid: u32, from: NameId, to: NameId) -> bool
        ensures { result ≡ has_room self.now.capacity (loads_at self.now.queues (sid, from, to)) }
    {
        self.queues.has_room(self.capacity, sid, from, to)
    }
}

/// Takes memory for so many events.
pub fn reserve_entries(history: &mut Vec<Entry>, count: usize) -> Result<(), Memory>
    ensures items { history.new.items ≡ history.old.items }
    ensures ok { OnOk result (count ≤ vec_capacity history.new - vec_len history.new) }
    ensures kept { vec_capacity history.old - vec_len history.old ≤ vec_capacity history.new - vec_len history.new }
    ensures succeeds { count ≤ vec_capacity history.old - vec_len history.old → IsOk result }
{
    history.reserve(count)?;
    Ok(())
}

/// One event more, for which there is room.
pub fn append(history: &mut Vec<Entry>, worker: u32, event: Event)
    requires { vec_len history.old < vec_capacity history.old }
    ensures items { history.new.items ≡ history.old.items ++ record { worker = worker; event = event } ∷ [] }
    ensures room { vec_capacity history.old - vec_len history.old ≤ vec_capacity history.new - vec_len history.new + 1 }
{
    match history.push(Entry { worker, event }) {
        Ok(()) => {}
        Err(_) => unreachable!(),
    }
}
