//! Following events that were made elsewhere.

ghost use Rattle.std.specs.Prelude.{◌≡◌, ◌<◌, ◌↔◌, IsTrue, Some, false, length};
ghost use Rattle.chor_base.specs.Meaning.{Hosts};
ghost use Rattle.chor_base.specs.declared.event.Event.TheVariants as made;
ghost use Rattle.chor_host.specs.Functions.{hosts_in, names_of};
ghost use Rattle.chor_host.specs.Tables.{functions_of};
ghost use Rattle.endpoint_code.specs.Faults.{AsksKnown, is_listed};
ghost use Rattle.endpoint_machine.specs.Acts.{is_call_event};
ghost use Rattle.endpoint_machine.specs.declared.head.Head.TheVariants as head;
ghost use Rattle.net_core.specs.Follows.{Follows, MayMake, maker_of};
ghost use Rattle.net_core.specs.Heads.{Shows};
ghost use Rattle.net_core.specs.Steps.{FitsMore};

use crate::answer::Followed;
use crate::network::Network;
use chor_base::{Event, Load, NameId};
use chor_host::HostTable;
use endpoint_machine::Head;

// Whether an event is that of a process that sends a load on a queue.
fn is_sending(event: &Event, sender: u32, lane: (u32, NameId, NameId), sent: Load) -> bool
    ensures { IsTrue result ↔ (event.now ≡ made.Send sender lane.0 lane.1 lane.2 sent) }
{
    match event {
        Event::Send {
            pid,
            sid,
            from,
            to,
            load,
        } => *pid == sender && (*sid, *from, *to) == lane && *load == sent,
        _ => false,
    }
}

// Whether an event is that of a process that receives a load from a queue.
fn is_receiving(event: &Event, receiver: u32, lane: (u32, NameId, NameId), taken: Load) -> bool
    ensures { IsTrue result ↔ (event.now ≡ made.Recv receiver lane.0 lane.1 lane.2 taken) }
{
    match event {
        Event::Recv {
            pid,
            sid,
            from,
            to,
            load,
        } => *pid == receiver && (*sid, *from, *to) == lane && *load == taken,
        _ => false,
    }
}

impl Network<'_> {
    // Whether a process that sends next on a queue can make an event.
    fn may_send(&self, pid: u32, lane: (u32, NameId, NameId), event: &Event) -> bool
        requires there { pid < length self.now.state.machines }
        requires sends { Shows self.now.endpoints self.now.state pid (head.Out lane.0 lane.1 lane.2) }
        ensures { (hosts : Hosts) → IsTrue result ↔ MayMake self.now.endpoints hosts self.now.capacity self.now.state pid event.now }
    {
        if !self.ledger.has_room(lane.0, lane.1, lane.2) {
            return false;
        }
        let machine = &self.machines[pid as usize];
        is_sending(event, pid, lane, machine.outgoing(self.endpoints))
    }

    // Whether a process that takes next from a queue can make an event.
    fn may_receive(&self, pid: u32, lane: (u32, NameId, NameId), event: &Event) -> bool
        requires there { pid < length self.now.state.machines }
        requires takes { Shows self.now.endpoints self.now.state pid (head.Take lane.0 lane.1 lane.2) }
        ensures { (hosts : Hosts) → IsTrue result ↔ MayMake self.now.endpoints hosts self.now.capacity self.now.state pid event.now }
    {
        let Some(load) = self.ledger.queues.first(lane.0, lane.1, lane.2) else {
            return false;
        };
        let machine = &self.machines[pid as usize];
        machine.fits(self.endpoints, load) && is_receiving(event, pid, lane, load)
    }

    // Whether a process can make an event by itself.
    fn may_make(&self, pid: u32, hosts: &HostTable, event: &Event) -> bool
        requires there { pid < length self.now.state.machines }
        requires hosts { AsksKnown (is_listed (names_of (functions_of hosts.now)) self.now.endpoints) self.now.endpoints }
        ensures { IsTrue result ↔ MayMake self.now.endpoints (hosts_in self.now.endpoints.names (functions_of hosts.now)) self.now.capacity self.now.state pid event.now }
    {
        match self.head(pid) {
            Head::Out(sid, from, to) => self.may_send(pid, (sid, from, to), event),
            Head::Take(sid, from, to) => self.may_receive(pid, (sid, from, to), event),
            Head::Local => {
                let machine = &self.machines[pid as usize];
                machine.may(self.endpoints, hosts, event)
            }
            Head::Join(_, _) => false,
            Head::Ended => false,
        }
    }

    // Whether there is such a process, and it can make an event by itself.
    pub(crate) fn can_make(&self, pid: u32, hosts: &HostTable, event: &Event) -> bool
        requires { AsksKnown (is_listed (names_of (functions_of hosts.now)) self.now.endpoints) self.now.endpoints }
        ensures { IsTrue result ↔ MayMake self.now.endpoints (hosts_in self.now.endpoints.names (functions_of hosts.now)) self.now.capacity self.now.state pid event.now }
    {
        pid < self.count() && self.may_make(pid, hosts, event)
    }

    // Follows an event that this process makes by itself, and that is no host call.
    fn follow_alone(&mut self, pid: u32, hosts: &HostTable, event: &Event) -> Followed
        requires hosts { AsksKnown (is_listed (names_of (functions_of hosts.now)) self.old.endpoints) self.old.endpoints }
        requires fits { FitsMore self.old 1 }
        requires maker { maker_of event.now ≡ Some pid }
        requires other { is_call_event event.now ≡ false }
        ensures { Follows (hosts_in self.old.endpoints.names (functions_of hosts.now)) self.old event.now result self.new }
    {
        if !self.can_make(pid, hosts, event) {
            return Followed::Unmatched;
        }
        match self.go(0, pid, self.head(pid), hosts) {
            Ok(()) => Followed::Did,
            Err(_) => Followed::Memory,
        }
    }

    /// Makes an event that was made elsewhere, if it is a step from here, with whichever partners
    /// it tells where it starts a session, and whichever answer where it asks a host function.
    pub fn follow(&mut self, hosts: &HostTable, event: &Event) -> Followed
        requires hosts { AsksKnown (is_listed (names_of (functions_of hosts.now)) self.old.endpoints) self.old.endpoints }
        requires fits { FitsMore self.old 1 }
        ensures { Follows (hosts_in self.old.endpoints.names (functions_of hosts.now)) self.old event.now result self.new }
    {
        match event {
            Event::Start {
                channel,
                sid,
                parts,
            } => self.follow_start(*channel, *sid, parts.as_slice()),
            Event::Send { pid, .. }
            | Event::Recv { pid, .. }
            | Event::Test { pid, .. }
            | Event::Set { pid, .. }
            | Event::Show { pid, .. } => self.follow_alone(*pid, hosts, event),
            Event::Host { pid, value, .. } => self.follow_call(*pid, *value, hosts, event),
        }
    }
}
