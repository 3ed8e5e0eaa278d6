//! Partners among those who join a channel.

ghost use Rattle.std.specs.Prelude.{◌≡◌, ◌==◌, ◌||◌, length, not, is_some};
ghost use Rattle.endpoint_code.specs.Network.{channel_of};
ghost use Rattle.endpoint_code.specs.NetworkRuns.{is_joined, absent_on};
ghost use Rattle.net_core.specs.Candidates.{AreBelow, AreJoiners};

use crate::network::Network;
use chor_base::NameId;
use post_office::channel_named;

impl Network<'_> {
    // Whether one of these processes, who are all that join a channel, joins it in a role.
    fn is_joined_among(&self, channel: NameId, role: NameId, joiners: &[u32]) -> bool
        requires there { AreBelow (length self.now.state.machines) joiners.now }
        requires all { AreJoiners self.now.endpoints self.now.capacity self.now.state channel joiners.now }
        ensures { result ≡ is_joined self.now.endpoints self.now.state.machines channel role }
    {
        for pid in joiners {
            if self.joins(*pid, channel, role) {
                return true;
            }
        }
        false
    }

    // Whether none of them joins in a role other than a process's own.
    fn is_missing_among(&self, channel: NameId, own: NameId, role: NameId, joiners: &[u32]) -> bool
        requires there { AreBelow (length self.now.state.machines) joiners.now }
        requires all { AreJoiners self.now.endpoints self.now.capacity self.now.state channel joiners.now }
        ensures { result ≡ not ((role.0 == own.0) || is_joined self.now.endpoints self.now.state.machines channel role) }
    {
        role != own && !self.is_joined_among(channel, role, joiners)
    }

    // Whether each active role of a channel, other than a process's own, is joined by one of these
    // processes, who are all that join the channel.
    pub(crate) fn are_joined_among(&self, channel: NameId, own: NameId, joiners: &[u32]) -> bool
        requires there { AreBelow (length self.now.state.machines) joiners.now }
        requires all { AreJoiners self.now.endpoints self.now.capacity self.now.state channel joiners.now }
        ensures { result ≡ not (is_some (absent_on self.now.endpoints self.now.state.machines channel own (channel_of self.now.endpoints.channels channel))) }
    {
        let Some(found) = channel_named(self.endpoints.channels.as_slice(), channel) else {
            return true;
        };
        for role in found.active.as_slice() {
            if self.is_missing_among(channel, own, *role, joiners) {
                return false;
            }
        }
        true
    }
}
