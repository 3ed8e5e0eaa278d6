//! Sends, receipts and local events.

ghost use Rattle.std.specs.Prelude.{◌≡◌, ◌≤◌, Some, [], slice_get, OnOk, OnErr, IsOk, true};
ghost use Rattle.chor_base.specs.declared.event.Event.TheVariants as event;
ghost use Rattle.post_office.specs.Lanes.{room_on};
ghost use Rattle.post_office.specs.Views.{loads_at, CanMake, CanReceive, is_full};
ghost use Rattle.post_office.specs.Answers.{IsSame, HasActed, AnswersSend, AnswersReceipt, is_local};

use super::Office;
use crate::desk::make_busy;
use crate::entries::actor;
use crate::ledger::{append, reserve_entries};
use crate::post::{Received, Sent};
use chor_base::{Event, Load, Memory, NameId};

impl Office<'_> {
    /// Takes memory for one message on a queue and for one event.
    pub fn reserve(&mut self, sid: u32, from: NameId, to: NameId) -> Result<(), Memory>
        ensures same { IsSame self.old self.new }
        ensures room { OnOk result (1 ≤ self.new.room) }
        ensures place { OnOk result (1 ≤ room_on self.new.queues (sid, from, to)) }
        ensures succeeds { 1 ≤ self.old.room → 1 ≤ room_on self.old.queues (sid, from, to) → IsOk result }
    {
        reserve_entries(&mut self.ledger.history, 1)?;
        self.ledger.queues.reserve(sid, from, to)
    }

    /// Takes memory for so many events.
    pub fn reserve_notes(&mut self, count: u32) -> Result<(), Memory>
        ensures same { IsSame self.old self.new }
        ensures room { OnOk result (count ≤ self.new.room) }
        ensures succeeds { count ≤ self.old.room → IsOk result }
    {
        reserve_entries(&mut self.ledger.history, count as usize)
    }

    /// The first message of a queue.
    pub fn first(&self, sid: u32, from: NameId, to: NameId) -> Option<Load>
        ensures { result ≡ slice_get (loads_at self.now.queues (sid, from, to)) 0 }
    {
        self.ledger.queues.first(sid, from, to)
    }

    /// Whether a declared capacity is reached in a queue.
    pub fn full(&self, sid: u32, from: NameId, to: NameId) -> bool
        ensures { result ≡ is_full self.now (sid, from, to) }
    {
        !self.ledger.has_room(sid, from, to)
    }

    /// Sends a message, which makes an event of a process that is at a head for it.
    pub fn send(
        &mut self,
        worker: u32,
        pid: u32,
        sid: u32,
        from: NameId,
        to: NameId,
        load: Load,
    ) -> Sent
        requires room { 1 ≤ self.old.room }
        requires place { 1 ≤ room_on self.old.queues (sid, from, to) }
        requires stands { CanMake self.old (event.Send pid sid from to load) }
        ensures { AnswersSend self.old worker pid (sid, from, to) load result self.new }
    {
        if self.full(sid, from, to) {
            return Sent::Full;
        }
        self.ledger.queues.put(sid, from, to, load);
        make_busy(&mut self.desks, pid);
        let event = Event::Send {
            pid,
            sid,
            from,
            to,
            load,
        };
        append(&mut self.ledger.history, worker, event);
        Sent::Sent
    }

    /// Receives the first message of a queue, which makes an event of a process that is at a head
    /// that takes it.
    pub fn recv(&mut self, worker: u32, pid: u32, sid: u32, from: NameId, to: NameId) -> Received
        requires room { 1 ≤ self.old.room }
        requires stands { CanReceive self.old pid (sid, from, to) }
        ensures { AnswersReceipt self.old worker pid (sid, from, to) result self.new }
    {
        let Some(load) = self.ledger.queues.first(sid, from, to) else {
            return Received::Empty;
        };
        let _ = self.ledger.queues.take(sid, from, to);
        make_busy(&mut self.desks, pid);
        let event = Event::Recv {
            pid,
            sid,
            from,
            to,
            load,
        };
        append(&mut self.ledger.history, worker, event);
        Received::Got(load)
    }

    /// Notes a local event of a process that is at a head for it.
    pub fn note(&mut self, worker: u32, event: Event)
        requires local { is_local event ≡ true }
        requires room { 1 ≤ self.old.room }
        requires stands { CanMake self.old event }
        ensures acted { HasActed self.old worker event self.new }
        ensures queues { self.new.queues ≡ self.old.queues }
    {
        let pid = actor(&event);
        make_busy(&mut self.desks, pid);
        append(&mut self.ledger.history, worker, event);
    }
}
