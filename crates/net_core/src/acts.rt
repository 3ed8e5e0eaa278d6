//! What a process of a network does by itself.

ghost use Rattle.std.specs.Prelude.{◌≡◌, ◌≤◌, Some, true, OnOk, IsOk, slice_get, ℤ};
ghost use Rattle.chor_base.specs.Events.{Triple};
ghost use Rattle.chor_host.specs.Functions.{hosts_in, names_of};
ghost use Rattle.chor_host.specs.Tables.{functions_of};
ghost use Rattle.endpoint_code.specs.Faults.{IsFaultless, IsFaultlessWith};
ghost use Rattle.endpoint_code.specs.Network.{loads_for};
ghost use Rattle.endpoint_machine.specs.declared.head.Head.TheVariants as head;
ghost use Rattle.endpoint_machine.specs.Bound.{IsBound};
ghost use Rattle.endpoint_machine.specs.Heads.{head_of};
ghost use Rattle.post_office.specs.Lanes.{loads_in, room_on};
ghost use Rattle.session_starts.specs.Machines.{is_reserved};
ghost use Rattle.net_core.specs.Machines.{has_queue_room, fits_first, can_act, ActsWith, MovesWith};

use chor_base::{Event, Memory, NameId};
use chor_host::HostTable;
use endpoint_code::Endpoints;
use endpoint_machine::{Head, Machine};
use post_office::Queues;

/// Takes memory for what a process with this head does, if it doesn't join.
pub fn reserve(
    endpoints: &Endpoints,
    machine: &mut Machine,
    head: Head,
    queues: &mut Queues,
) -> Result<(), Memory>
    requires faultless { IsFaultless endpoints.now }
    requires bound { IsBound endpoints.now machine.old.machine }
    ensures number { machine.new.number ≡ machine.old.number }
    ensures machine { machine.new.machine ≡ machine.old.machine }
    ensures loads { loads_in queues.new.lanes ≡ loads_in queues.old.lanes }
    ensures ok { OnOk result (is_reserved endpoints.now machine.new ≡ true) }
    ensures queue { OnOk result (has_queue_room queues.new (Some head) ≡ true) }
    ensures kept { is_reserved endpoints.now machine.old ≡ true → is_reserved endpoints.now machine.new ≡ true }
    ensures queues { (t : Triple) → room_on queues.old t ≤ room_on queues.new t }
    ensures succeeds { is_reserved endpoints.now machine.old ≡ true → has_queue_room queues.old (Some head) ≡ true → IsOk result }
{
    machine.reserve(endpoints)?;
    match head {
        Head::Out(sid, from, to) => queues.reserve(sid, from, to),
        _ => Ok(()),
    }
}

// Sends on a queue.
fn send(
    endpoints: &Endpoints,
    machine: &mut Machine,
    lane: (u32, NameId, NameId),
    queues: &mut Queues,
) -> Event
    requires faultless { IsFaultless endpoints.now }
    requires bound { IsBound endpoints.now machine.old.machine }
    requires head { head_of endpoints.now machine.old.machine ≡ Some (head.Out lane.0 lane.1 lane.2) }
    requires room { is_reserved endpoints.now machine.old ≡ true }
    requires queue { 1 ≤ room_on queues.old lane }
    ensures number { machine.new.number ≡ machine.old.number }
    ensures bound { IsBound endpoints.now machine.new.machine }
    ensures moves { (v : ℤ) → MovesWith endpoints.now v queues.old machine.old result queues.new machine.new }
{
    let (sid, from, to) = lane;
    let load = machine.outgoing(endpoints);
    machine.sent(endpoints);
    queues.put(sid, from, to, load);
    Event::Send {
        pid: machine.number(),
        sid,
        from,
        to,
        load,
    }
}

// Takes the first load of a queue, which it takes.
fn receive(
    endpoints: &Endpoints,
    machine: &mut Machine,
    lane: (u32, NameId, NameId),
    queues: &mut Queues,
) -> Event
    requires faultless { IsFaultless endpoints.now }
    requires bound { IsBound endpoints.now machine.old.machine }
    requires head { head_of endpoints.now machine.old.machine ≡ Some (head.Take lane.0 lane.1 lane.2) }
    requires room { is_reserved endpoints.now machine.old ≡ true }
    requires fits { fits_first endpoints.now machine.old.machine (slice_get (loads_for (loads_in queues.old.lanes) lane) 0) ≡ true }
    ensures number { machine.new.number ≡ machine.old.number }
    ensures bound { IsBound endpoints.now machine.new.machine }
    ensures moves { (v : ℤ) → MovesWith endpoints.now v queues.old machine.old result queues.new machine.new }
{
    let (sid, from, to) = lane;
    let Some(load) = queues.take(sid, from, to) else {
        unreachable!()
    };
    machine.receive(endpoints, load);
    Event::Recv {
        pid: machine.number(),
        sid,
        from,
        to,
        load,
    }
}

/// Does what a process with this head does by itself, and tells the event.
pub fn act(
    endpoints: &Endpoints,
    hosts: &HostTable,
    machine: &mut Machine,
    head: Head,
    queues: &mut Queues,
) -> Event
    requires faultless { IsFaultlessWith (names_of (functions_of hosts.now)) endpoints.now }
    requires bound { IsBound endpoints.now machine.old.machine }
    requires head { head_of endpoints.now machine.old.machine ≡ Some head }
    requires room { is_reserved endpoints.now machine.old ≡ true }
    requires queue { has_queue_room queues.old (Some head) ≡ true }
    requires goes { can_act endpoints.now queues.old machine.old head ≡ true }
    ensures number { machine.new.number ≡ machine.old.number }
    ensures bound { IsBound endpoints.now machine.new.machine }
    ensures acts { ActsWith endpoints.now (hosts_in endpoints.now.names (functions_of hosts.now)) queues.old machine.old result queues.new machine.new }
{
    match head {
        Head::Out(sid, from, to) => send(endpoints, machine, (sid, from, to), queues),
        Head::Take(sid, from, to) => receive(endpoints, machine, (sid, from, to), queues),
        Head::Local => machine.local_step(endpoints, hosts),
        Head::Join(_, _) => unreachable!(),
        Head::Ended => unreachable!(),
    }
}
