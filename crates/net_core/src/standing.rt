//! What the next action of a process tells of it.

ghost use Rattle.std.specs.Prelude.{◌≡◌, ◌<◌, length};
ghost use Rattle.endpoint_machine.specs.declared.head.Head.TheVariants as head;
ghost use Rattle.net_core.specs.Heads.{Shows, is_end, is_joining_head, why_at, why_by, steps_at, is_listed_at, leads_at};

use crate::network::Network;
use chor_base::{NameId, Why};
use endpoint_machine::Head;
use post_office::channel_named;

// Whether a process with this head has ended.
pub fn has_ended(head: Head) -> bool
    ensures { result ≡ is_end head }
{
    match head {
        Head::Ended => true,
        _ => false,
    }
}

// Whether a process with this head joins a session.
pub fn is_joining(head: Head) -> bool
    ensures { result ≡ is_joining_head head }
{
    match head {
        Head::Join(_, _) => true,
        _ => false,
    }
}

impl Network<'_> {
    // Why a process with this head waits, if it does.
    pub(crate) fn waiting(&self, pid: u32, head: Head) -> Option<Why>
        requires there { pid < length self.now.state.machines }
        requires shows { Shows self.now.endpoints self.now.state pid head }
        ensures { result ≡ why_at self.now.endpoints self.now.capacity self.now.state pid }
    {
        match head {
            Head::Join(channel, role) => self.absent(channel, role),
            Head::Take(sid, from, to) => self.awaits(pid, sid, from, to),
            Head::Out(sid, from, to) => self.crowded(sid, from, to),
            Head::Local => None,
            Head::Ended => None,
        }
    }

    // Why a process waits that takes on a queue, if it does.
    fn awaits(&self, pid: u32, sid: u32, from: NameId, to: NameId) -> Option<Why>
        requires there { pid < length self.now.state.machines }
        requires takes { Shows self.now.endpoints self.now.state pid (head.Take sid from to) }
        ensures { result ≡ why_at self.now.endpoints self.now.capacity self.now.state pid }
    {
        let Some(load) = self.ledger.queues.first(sid, from, to) else {
            return Some(Why::Empty(sid, from, to));
        };
        let machine = &self.machines[pid as usize];
        if machine.fits(self.endpoints, load) {
            None
        } else {
            Some(Why::Wrong(sid, from, to))
        }
    }

    // Why a process waits that sends on a queue, if it does.
    fn crowded(&self, sid: u32, from: NameId, to: NameId) -> Option<Why>
        ensures { result ≡ why_by self.now.endpoints self.now.capacity self.now.state (head.Out sid from to) }
    {
        if self.ledger.has_room(sid, from, to) {
            None
        } else {
            Some(Why::Full(sid, from, to))
        }
    }

    // Whether a process with this head can step.
    fn can_step(&self, pid: u32, head: Head) -> bool
        requires there { pid < length self.now.state.machines }
        requires shows { Shows self.now.endpoints self.now.state pid head }
        ensures { result ≡ steps_at self.now.endpoints self.now.capacity self.now.state pid }
    {
        !has_ended(head) && self.waiting(pid, head).is_none()
    }

    // Whether a process with this head that joins does so in its channel's first active role.
    pub(crate) fn leads(&self, pid: u32, head: Head) -> bool
        requires there { pid < length self.now.state.machines }
        requires shows { Shows self.now.endpoints self.now.state pid head }
        ensures { result ≡ leads_at self.now.endpoints self.now.state pid }
    {
        match head {
            Head::Join(channel, role) => {
                match channel_named(self.endpoints.channels.as_slice(), channel) {
                    Some(channel) => channel.active.as_slice().first() == Some(&role),
                    None => false,
                }
            }
            _ => true,
        }
    }

    // Whether the pick rule may take a process with this head.
    pub(crate) fn is_listed(&self, pid: u32, head: Head) -> bool
        requires there { pid < length self.now.state.machines }
        requires shows { Shows self.now.endpoints self.now.state pid head }
        ensures { result ≡ is_listed_at self.now.endpoints self.now.capacity self.now.state pid }
    {
        self.can_step(pid, head) && self.leads(pid, head)
    }
}
