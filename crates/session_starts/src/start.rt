//! A start.

ghost use Rattle.std.specs.Prelude.{ℕ, true, ◌≡◌, ◌<◌, ◌+◌, ◌^◌, ◌++◌, map, All, length, IfOk, OnOk, OnErr, Some};
ghost use Rattle.endpoint_code.specs.Network.{channel_of, served_parts};
ghost use Rattle.endpoint_code.specs.Faults.{IsFaultless};
ghost use Rattle.endpoint_machine.specs.Bound.{IsBound};
ghost use Rattle.session_starts.specs.Machines.{standing_of, AreCounted};
ghost use Rattle.session_starts.specs.Starts.{AllJoin, AreApart, HasStarted, reserved_in};

use crate::joining::{join_all, reserve_sessions};
use crate::services::{add_served, serve};
use chor_base::{List, Memory, NameId};
use endpoint_code::{Channel, Endpoints};
use endpoint_machine::Machine;

/// Starts a session on a channel with these processes, one for each active role. Each service role
/// gets a new process with the next number. Answers all parts, those of the service roles last. After
/// an error no process has lost room.
pub fn start_session(
    endpoints: &Endpoints,
    machines: &mut Vec<Machine>,
    channel: &Channel,
    sid: u32,
    mut parts: List<(NameId, u32)>,
) -> Result<List<(NameId, u32)>, Memory>
    requires faultless { IsFaultless endpoints.now }
    requires channel { channel_of endpoints.now.channels channel.now.name ≡ Some channel.now }
    requires bound { All (IsBound endpoints.now) (map standing_of machines.old.items) }
    requires counted { AreCounted machines.old.items }
    requires joins { AllJoin endpoints.now (map standing_of machines.old.items) channel.now.name parts }
    requires apart { AreApart parts }
    requires fits { length machines.old.items + length channel.now.serve < 2 ^ 32 }
    ensures parts { IfOk result (λ all. all ≡ parts ++ served_parts channel.now.serve (length machines.old.items)) }
    ensures started { OnOk result (HasStarted endpoints.now channel.now sid (map standing_of machines.old.items) parts (map standing_of machines.new.items)) }
    ensures same { OnErr result (map standing_of machines.new.items ≡ map standing_of machines.old.items) }
    ensures room { OnErr result ((p : ℕ) → reserved_in endpoints.now machines.old.items p ≡ true → reserved_in endpoints.now machines.new.items p ≡ true) }
    ensures bound { All (IsBound endpoints.now) (map standing_of machines.new.items) }
    ensures counted { AreCounted machines.new.items }
    ensures few { length machines.new.items < 2 ^ 32 }
{
    let alloc = *machines.allocator();
    let first = machines.len() as u32;
    let joining = parts.len();
    add_served(&mut parts, channel.serve.as_slice(), first)?;
    let mut new = serve(alloc, endpoints, channel, sid, first)?;
    machines.reserve(new.len())?;
    let active = &parts.as_slice()[..joining];
    reserve_sessions(endpoints, machines.as_mut_slice(), active)?;
    join_all(
        endpoints,
        machines.as_mut_slice(),
        channel.name,
        sid,
        active,
    );
    match machines.append(&mut new) {
        Ok(()) => Ok(parts),
        Err(_) => unreachable!(),
    }
}
