//! Events that follow others.

ghost use Rattle.std.specs.Prelude.{◌≡◌, ◌<◌, ◌↔◌, ◌++◌, IsTrue, map, length, slice_get, Some, List as AList};
ghost use Rattle.chor_base.specs.declared.event.Event.{Event as AnEvent};
ghost use Rattle.chor_tree.specs.Names.{names_in};
ghost use Rattle.post_office.specs.Views.{loads_at};
ghost use Rattle.conform.specs.Judged.{IsFit};
ghost use Rattle.conform.specs.Moves.{act};
ghost use Rattle.conform.specs.Progress.{IsAfter};
ghost use Rattle.conform.specs.Steps.{IsMoveOf, IsOpening, HasGone, Opens, Sends, Receives, Follows};

use crate::deed::Deed;
use crate::moves::next_of;
use crate::places::{channel_named, protocol_among, role_among};
use crate::progress::Progress;
use crate::session::Session;
use chor_base::{Event, Load, Memory, NameId};
use chor_tree::{File, Named, Service};

// Whether parts are in these roles, one by one.
fn are_in(parts: &[(NameId, u32)], roles: &[Named]) -> bool
    ensures { IsTrue result ↔ (map (λ q. q.0) parts.now ≡ names_in roles.now) }
{
    if parts.len() != roles.len() {
        return false;
    }
    for (place, role) in roles.iter().enumerate() {
        if parts[place].0 != role.name {
            return false;
        }
    }
    true
}

// Whether parts are in all roles of a channel, in order.
fn are_of(parts: &[(NameId, u32)], service: &Service) -> bool
    ensures { IsTrue result ↔ (map (λ q. q.0) parts.now ≡ names_in service.now.active ++ names_in service.now.serve) }
{
    let active = service.active.as_slice();
    if parts.len() < active.len() {
        return false;
    }
    let (first, rest) = parts.split_at(active.len());
    are_in(first, active) && are_in(rest, service.serve.as_slice())
}

impl Progress {
    // The place of the protocol of a session that may start next.
    fn opening(
        &self,
        file: &File,
        channel: NameId,
        sid: u32,
        parts: &[(NameId, u32)],
    ) -> Option<u32>
        ensures { IsOpening file.now self.now channel sid parts.now result }
    {
        let service = channel_named(file.services.as_slice(), channel)?;
        if sid as usize != self.sessions.len() || !are_of(parts, service) {
            return None;
        }
        protocol_among(&file.protocols, service.protocol.name)
    }

    // Starts a session, if it may start next.
    fn start(
        &mut self,
        file: &File,
        channel: NameId,
        sid: u32,
        parts: &[(NameId, u32)],
    ) -> Result<bool, Memory>
        ensures { Opens file.now self.old channel sid parts.now result self.new }
    {
        let Some(place) = self.opening(file, channel, sid, parts) else {
            return Ok(false);
        };
        let alloc = *self.sessions.allocator();
        let roles = file.protocols.at(place as usize).roles.len();
        self.sessions.push(Session::new(alloc, place, roles)?)?;
        Ok(true)
    }

    // Where a role stands among those of its session's protocol, and the state of its type to which a
    // deed leads, if it may be done.
    fn move_of(&self, file: &File, sid: u32, role: NameId, deed: Deed) -> Option<(usize, u32)>
        ensures { IsMoveOf file.now self.now sid role (act deed) result }
    {
        let session = self.sessions.get(sid as usize)?;
        let protocol = file.protocols.as_slice().get(session.protocol())?;
        let types = self.types.as_slice().get(session.protocol())?;
        let place = role_among(protocol.roles.as_slice(), role)?;
        let states = types.as_slice().get(place)?.states.as_slice();
        let state = states.get(session.state(place)? as usize)?;
        Some((place, next_of(state, deed)?))
    }

    // A role of a session goes on to a state of its type.
    fn go(&mut self, sid: u32, place: usize, state: u32)
        requires { sid < length self.old.sessions.items }
        ensures gone { HasGone self.old self.new sid place state }
        ensures queues { self.new.queues ≡ self.old.queues }
    {
        let session = &mut self.sessions[sid as usize];
        session.go(place, state);
    }

    // Sends, if the sender's role may do so.
    fn send(&mut self, file: &File, lane: (u32, NameId, NameId), load: Load) -> Result<bool, Memory>
        ensures { Sends file.now self.old lane load result self.new }
    {
        let (sid, from, to) = lane;
        let Some(carried) = self.carried(file, load) else {
            return Ok(false);
        };
        let Some((place, state)) = self.move_of(file, sid, from, Deed::Puts(to, carried)) else {
            return Ok(false);
        };
        self.queues.reserve(sid, from, to)?;
        self.queues.put(sid, from, to, load);
        self.go(sid, place, state);
        Ok(true)
    }

    // Whether a load is the first that was sent and not yet received.
    fn is_first(&self, lane: (u32, NameId, NameId), load: Load) -> bool
        ensures { IsTrue result ↔ (slice_get (loads_at self.now.queues lane) 0 ≡ Some load) }
    {
        match self.queues.first(lane.0, lane.1, lane.2) {
            Some(first) => first == load,
            None => false,
        }
    }

    // Receives, if the load is the first that was sent and the receiver's role may do so.
    fn receive(&mut self, file: &File, lane: (u32, NameId, NameId), load: Load) -> bool
        ensures { Receives file.now self.old lane load result self.new }
    {
        let (sid, from, to) = lane;
        if !self.is_first(lane, load) {
            return false;
        }
        let Some(carried) = self.carried(file, load) else {
            return false;
        };
        let Some((place, state)) = self.move_of(file, sid, to, Deed::Gets(from, carried)) else {
            return false;
        };
        self.queues.take(sid, from, to);
        self.go(sid, place, state);
        true
    }

    /// Whether an event may follow those before it. If so, it is one of them from then on.
    pub fn follow(&mut self, file: &File, event: &Event) -> Result<bool, Memory>
        requires { IsFit file.now }
        ensures { (h : AList AnEvent) → IsAfter file.now h self.old → Follows file.now h event.now result self.new }
    {
        match *event {
            Event::Start {
                channel,
                sid,
                ref parts,
            } => self.start(file, channel, sid, parts.as_slice()),
            Event::Send {
                sid,
                from,
                to,
                load,
                ..
            } => self.send(file, (sid, from, to), load),
            Event::Recv {
                sid,
                from,
                to,
                load,
                ..
            } => Ok(self.receive(file, (sid, from, to), load)),
            Event::Test { .. } | Event::Set { .. } | Event::Show { .. } | Event::Host { .. } => {
                Ok(true)
            }
        }
    }
}
