//! What a worker does.

ghost use Rattle.std.specs.Prelude.{◌≡◌};
ghost use Rattle.chor_host.specs.Tables.{functions_of};
ghost use Rattle.turn_lock.specs.Seats.{turn_origin};
ghost use Rattle.workers.specs.Desks.{IsReady, MayGoOn, Stays};
ghost use Rattle.workers.specs.Turns.{Suits};

use crate::bells::Bell;
use crate::desks::Desk;
use crate::next::{Next, Shared};
use crate::turns::{stop_all, take_turn};
use chor_host::HostTable;
use chor_io::Gate;
use crew::Crew;
use endpoint_code::Endpoints;
use std::sync::Wait;
use turn_lock::Turn;

// Lets others go first where a worker has nothing to do: until one of them has made an event, or for a
// short while after it has made one itself. Tells whether the worker goes on; else it leaves.
fn rest<R: Wait>(rt: &R, bell: &Bell, crew: &Crew, heard: u64, next: Next) -> bool {
    if !crew.is_noted() {
        return true;
    }
    if next == Next::Waits {
        return bell.wait(rt, heard);
    }
    bell.listen(heard);
    true
}

/// Makes the local events of a worker's processes, and takes turns, each after the gate, until nothing is
/// left to do, or the worker leaves since others haven't begun.
pub fn work<T: Shared, R: Wait, G: Gate>(
    rt: &R,
    turn: &Turn<T>,
    bell: &Bell,
    endpoints: &Endpoints,
    hosts: &HostTable,
    gate: &G,
    desk: &mut Desk<T>,
)
    requires suits { Suits endpoints.now (functions_of hosts.now) (T.about (turn_origin T.origin turn.now)) }
    requires ready { IsReady T.origin turn.now desk.old }
    requires goes_on { MayGoOn T.origin T.about turn.now desk.old }
    ensures ready { IsReady T.origin turn.now desk.new × Stays desk.old desk.new }
    ensures goes_on { MayGoOn T.origin T.about turn.now desk.new }
{
    bell.begin();
    if desk.ended {
        return;
    }
    let mut next = Next::Goes;
    for turns in desk.turns..u64::MAX {
        let worked = desk.crew.work_alone(endpoints, hosts);
        gate.before(desk.number, turns);
        if worked.is_err() {
            stop_all(rt, turn, bell, desk);
            break;
        }
        if !rest(rt, bell, &desk.crew, desk.heard, next) {
            return;
        }
        next = take_turn(rt, turn, bell, endpoints, desk);
        desk.turns = turns + 1;
        if next == Next::Ends {
            break;
        }
    }
    desk.ended = true;
}
