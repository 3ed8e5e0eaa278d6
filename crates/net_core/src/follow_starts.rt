//! Following a start of a session.

ghost use Rattle.std.specs.Prelude.{◌≡◌, ◌<◌, ◌+◌, ◌^◌, ◌↔◌, ◌&&◌, ◌==◌, IsTrue, Some, length, take, OnOk, OnErr, true};
ghost use Rattle.chor_base.specs.Meaning.{Hosts};
ghost use Rattle.chor_base.specs.declared.event.Event.TheVariants as event;
ghost use Rattle.endpoint_code.specs.Network.{channel_of};
ghost use Rattle.net_core.specs.Follows.{Follows, IsCasting, joined_by, served_by};
ghost use Rattle.net_core.specs.Heads.{joins_in};
ghost use Rattle.net_core.specs.Steps.{FitsMore, HasBegun};
ghost use Rattle.net_core.specs.Views.{IsSame};

use crate::answer::Followed;
use crate::network::Network;
use chor_base::{List, Memory, NameId};
use endpoint_code::Channel;
use post_office::channel_named;

// Whether a part is this process in this role.
fn is_part(part: (NameId, u32), role: NameId, pid: u32) -> bool
    ensures { result ≡ ((part.0.0 == role.0) && (part.1 == pid)) }
{
    part.0 == role && part.1 == pid
}

// Whether each role has its part, whose process has the next number from the first on.
fn are_served(roles: &[NameId], first: u32, parts: &[(NameId, u32)]) -> bool
    requires long { length parts.now ≡ length roles.now }
    requires fits { first + length roles.now < 2 ^ 32 }
    ensures { result ≡ served_by roles.now first parts.now }
{
    for (place, role) in roles.iter().enumerate() {
        if !is_part(parts[place], *role, first + place as u32) {
            return false;
        }
    }
    true
}

impl Network<'_> {
    // Whether a part is in this role, and its process joins a channel in it.
    fn is_joined(&self, channel: NameId, role: NameId, part: (NameId, u32)) -> bool
        ensures { result ≡ ((part.0.0 == role.0) && joins_in self.now.endpoints self.now.state part.1 channel role) }
    {
        part.0 == role && part.1 < self.count() && self.joins(part.1, channel, role)
    }

    // Whether each role has its part, whose process joins a channel in it.
    fn are_joined(&self, channel: NameId, roles: &[NameId], parts: &[(NameId, u32)]) -> bool
        requires { length parts.now ≡ length roles.now }
        ensures { result ≡ joined_by self.now.endpoints self.now.state.machines channel roles.now parts.now }
    {
        for (place, role) in roles.iter().enumerate() {
            if !self.is_joined(channel, *role, parts[place]) {
                return false;
            }
        }
        true
    }

    // Whether a session can start on a channel with these parts.
    fn may_start(&self, channel: &Channel, parts: &[(NameId, u32)]) -> bool
        requires { length self.now.state.machines + length channel.now.serve < 2 ^ 32 }
        ensures { IsTrue result ↔ IsCasting self.now.endpoints self.now.state.machines channel.now parts.now }
    {
        let (active, serve) = (channel.active.as_slice(), channel.serve.as_slice());
        if active.is_empty() {
            return false;
        }
        if parts.len() != active.len() + serve.len() {
            return false;
        }
        let (joining, served) = parts.split_at(active.len());
        self.are_joined(channel.name, active, joining) && are_served(serve, self.count(), served)
    }

    // Starts a session on a channel with the parts of its active roles, which are the first.
    fn begin_with(&mut self, channel: &Channel, parts: &[(NameId, u32)]) -> Result<(), Memory>
        requires channel { channel_of self.old.endpoints.channels channel.now.name ≡ Some channel.now }
        requires casting { IsCasting self.old.endpoints self.old.state.machines channel.now parts.now }
        requires fits { FitsMore self.old 1 }
        ensures ok { OnOk result (HasBegun self.old channel.now (take (length channel.now.active) parts.now) self.new) }
        ensures err { OnErr result (IsSame self.old self.new) }
    {
        let joining = &parts[..channel.active.as_slice().len()];
        let parts = List::from_slice(self.alloc, joining)?;
        self.begin(0, channel, parts)
    }

    /// Follows a start of a session with these parts.
    pub(crate) fn follow_start(
        &mut self,
        channel: NameId,
        sid: u32,
        parts: &[(NameId, u32)],
    ) -> Followed
        requires { FitsMore self.old 1 }
        ensures { (hosts : Hosts) → Follows hosts self.old (event.Start channel sid parts.now) result self.new }
    {
        let endpoints = self.endpoints;
        let Some(found) = channel_named(endpoints.channels.as_slice(), channel) else {
            return Followed::Unmatched;
        };
        if sid != self.ledger.sid {
            return Followed::Unmatched;
        }
        if !self.may_start(found, parts) {
            return Followed::Unmatched;
        }
        match self.begin_with(found, parts) {
            Ok(()) => Followed::Did,
            Err(_) => Followed::Memory,
        }
    }
}
