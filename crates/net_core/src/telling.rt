//! Following host calls with the answers that their events tell.

ghost use Rattle.std.specs.Prelude.{◌≡◌, ◌<◌, Some, true, length};
ghost use Rattle.chor_host.specs.Functions.{hosts_in, names_of};
ghost use Rattle.chor_host.specs.Tables.{functions_of};
ghost use Rattle.endpoint_code.specs.Faults.{AsksKnown, is_listed};
ghost use Rattle.endpoint_machine.specs.Acts.{answer_in, is_call_event};
ghost use Rattle.net_core.specs.Follows.{Follows, HasFollowed, MayMake, maker_of};
ghost use Rattle.net_core.specs.Steps.{HasGrown};
ghost use Rattle.net_core.specs.Views.{IsReserved};

use crate::answer::Followed;
use crate::network::Network;
use chor_base::Event;
use chor_host::HostTable;
use post_office::append;

// The same host call once more.
fn copy_call(event: &Event) -> Event
    requires { is_call_event event.now ≡ true }
    ensures { result ≡ event.now }
{
    match event {
        Event::Host {
            pid,
            var,
            name,
            left,
            right,
            value,
        } => Event::Host {
            pid: *pid,
            var: *var,
            name: *name,
            left: *left,
            right: *right,
            value: *value,
        },
        _ => unreachable!(),
    }
}

impl Network<'_> {
    // Makes a host call that a process can make, with the answer that it tells, where there is room
    // for it.
    fn tell(&mut self, pid: u32, answer: i64, hosts: &HostTable, event: &Event)
        requires there { pid < length self.old.state.machines }
        requires call { is_call_event event.now ≡ true }
        requires answer { answer_in event.now ≡ answer }
        requires may { MayMake self.old.endpoints (hosts_in self.old.endpoints.names (functions_of hosts.now)) self.old.capacity self.old.state pid event.now }
        requires room { IsReserved self.old pid }
        ensures followed { HasFollowed (hosts_in self.old.endpoints.names (functions_of hosts.now)) self.old event.now self.new }
        ensures grown { HasGrown self.old self.new }
    {
        let endpoints = self.endpoints;
        let machine = &mut self.machines[pid as usize];
        machine.told(endpoints, hosts, answer);
        append(&mut self.ledger.history, 0, copy_call(event));
    }

    /// Follows a host call of this process with this answer, which is the one that it tells. The
    /// function isn't called.
    pub(crate) fn follow_call(
        &mut self,
        pid: u32,
        answer: i64,
        hosts: &HostTable,
        event: &Event,
    ) -> Followed
        requires hosts { AsksKnown (is_listed (names_of (functions_of hosts.now)) self.old.endpoints) self.old.endpoints }
        requires maker { maker_of event.now ≡ Some pid }
        requires call { is_call_event event.now ≡ true }
        requires answer { answer_in event.now ≡ answer }
        ensures { Follows (hosts_in self.old.endpoints.names (functions_of hosts.now)) self.old event.now result self.new }
    {
        if !self.can_make(pid, hosts, event) {
            return Followed::Unmatched;
        }
        match self.reserve(pid) {
            Ok(()) => {
                self.tell(pid, answer, hosts, event);
                Followed::Did
            }
            Err(_) => Followed::Memory,
        }
    }
}
