//! Starts of sessions.

ghost use Rattle.std.specs.Prelude.{◌≡◌, Some, None, IfOk, OnErr, map, true, ◌≢◌, []};
ghost use Rattle.endpoint_code.specs.Network.{channel_of};
ghost use Rattle.post_office.specs.Views.{post_at};
ghost use Rattle.post_office.specs.Answers.{IsSame};
ghost use Rattle.post_office.specs.Starts.{least_posted, partner_for, first_absent, IsCast, AllPosted, FitsStart, HasBegun, AnswersStartBy, is_joining};

use super::Office;
use crate::desk::{Desk, join_all, posted};
use crate::ledger::{append, reserve_entries};
use crate::parts::{add_served, channel_named};
use crate::post::{Post, Started};
use chor_base::{Event, List, Memory, NameId};
use endpoint_code::Channel;

impl Office<'_> {
    // The least process that is posted as joining a channel in a role.
    fn joiner(&self, channel: NameId, role: NameId) -> Option<u32>
        ensures { result ≡ least_posted 0 self.now.desks channel role }
    {
        for (pid, desk) in self.desks.iter().enumerate() {
            if desk.joins(channel, role) {
                return Some(pid as u32);
            }
        }
        None
    }

    // The process that takes a part in a start that a process makes in its own role.
    fn partner(&self, pid: u32, channel: NameId, own: NameId, role: NameId) -> Option<u32>
        ensures { result ≡ partner_for self.now.desks channel pid own role }
    {
        if role == own {
            Some(pid)
        } else {
            self.joiner(channel, role)
        }
    }

    // The first of these roles, other than a process's own, in which nobody is posted as joining.
    pub(crate) fn absent(
        &self,
        pid: u32,
        channel: NameId,
        own: NameId,
        roles: &[NameId],
    ) -> Option<NameId>
        ensures { result ≡ first_absent self.now.desks channel pid own roles.now }
    {
        for role in roles {
            if self.partner(pid, channel, own, *role).is_none() {
                return Some(*role);
            }
        }
        None
    }

    // Each role with its process.
    fn cast(
        &self,
        pid: u32,
        channel: NameId,
        own: NameId,
        roles: &[NameId],
    ) -> Result<List<(NameId, u32)>, Memory>
        requires { first_absent self.now.desks channel pid own roles.now ≡ None }
        ensures { IfOk result (λ parts. IsCast self.now.desks channel pid own roles.now parts) }
    {
        let mut parts = List::new(*self.desks.allocator());
        for role in roles {
            let Some(partner) = self.partner(pid, channel, own, *role) else {
                unreachable!()
            };
            parts.push((*role, partner))?;
        }
        Ok(parts)
    }

    // Starts a session on a channel with these processes.
    fn begin(
        &mut self,
        worker: u32,
        channel: &Channel,
        mut parts: List<(NameId, u32)>,
    ) -> Result<u32, Memory>
        requires channel { channel_of self.old.endpoints.channels channel.now.name ≡ Some channel.now }
        requires posted { AllPosted self.old.desks channel.now.name parts }
        requires roles { map (λ q. q.0) parts ≡ channel.now.active }
        requires some { parts ≢ [] }
        requires fits { FitsStart self.old }
        ensures begun { IfOk result (λ sid. HasBegun self.old worker channel.now parts self.new) }
        ensures sid { IfOk result (λ sid. sid ≡ self.old.sid) }
        ensures err { OnErr result (IsSame self.old self.new) }
    {
        let sid = self.ledger.sid;
        add_served(
            &mut parts,
            channel.serve.as_slice(),
            self.desks.len() as u32,
        )?;
        reserve_entries(&mut self.ledger.history, 1)?;
        self.desks
            .resize(self.desks.len() + channel.serve.len(), Desk::idle())?;
        join_all(&mut self.desks, sid, parts.as_slice());
        let event = Event::Start {
            channel: channel.name,
            sid,
            parts,
        };
        append(&mut self.ledger.history, worker, event);
        self.ledger.sid += 1;
        Ok(sid)
    }

    /// Starts a session on the channel that a process joins. In each other active role the least
    /// process takes part that is posted as joining in it.
    pub fn start(&mut self, worker: u32, pid: u32) -> Started
        requires joins { is_joining (post_at self.old.desks pid) ≡ true }
        requires fits { FitsStart self.old }
        ensures { AnswersStartBy self.old worker pid (post_at self.old.desks pid) result self.new }
    {
        let Post::Joining(channel, own) = posted(self.desks.as_slice(), pid) else {
            unreachable!()
        };
        let endpoints = self.endpoints;
        let Some(found) = channel_named(endpoints.channels.as_slice(), channel) else {
            unreachable!()
        };
        if let Some(role) = self.absent(pid, channel, own, found.active.as_slice()) {
            return Started::Absent(role);
        }
        let Ok(parts) = self.cast(pid, channel, own, found.active.as_slice()) else {
            return Started::Memory;
        };
        match self.begin(worker, found, parts) {
            Ok(sid) => Started::Started(sid),
            Err(_) => Started::Memory,
        }
    }
}
