//! Turns.

ghost use Rattle.std.specs.Prelude.{◌≡◌};
ghost use Rattle.endpoint_code.specs.Faults.{IsFaultless};
ghost use Rattle.turn_lock.specs.Seats.{turn_origin};
ghost use Rattle.workers.specs.Desks.{IsReady, IsAtWork, Stays};
ghost use Rattle.workers.specs.Turns.{UnlessEnds};

use crate::bells::Bell;
use crate::desks::Desk;
use crate::next::{Next, Shared};
use endpoint_code::Endpoints;
use std::sync::Wait;
use turn_lock::Turn;

/// A turn of a worker.
pub fn take_turn<T: Shared, R: Wait>(
    rt: &R,
    turn: &Turn<T>,
    bell: &Bell,
    endpoints: &Endpoints,
    desk: &mut Desk<T>,
) -> Next
    requires faultless { IsFaultless endpoints.now }
    requires endpoints { (T.about (turn_origin T.origin turn.now)).endpoints ≡ endpoints.now }
    requires ready { IsReady T.origin turn.now desk.old }
    requires at_work { IsAtWork T.origin T.about turn.now desk.old }
    ensures ready { IsReady T.origin turn.now desk.new × Stays desk.old desk.new }
    ensures at_work { UnlessEnds result (IsAtWork T.origin T.about turn.now desk.new) }
{
    let mut value = turn.take(rt, &mut desk.seat);
    desk.heard = bell.rings();
    let next = value.turn(&mut desk.crew, endpoints);
    turn.give(&mut desk.seat, value);
    if next != Next::Waits {
        desk.heard = bell.ring().wrapping_add(1);
    }
    next
}

/// The last turn of a worker that ran out of memory between two turns.
pub fn stop_all<T: Shared, R: Wait>(rt: &R, turn: &Turn<T>, bell: &Bell, desk: &mut Desk<T>)
    requires ready { IsReady T.origin turn.now desk.old }
    ensures ready { IsReady T.origin turn.now desk.new × Stays desk.old desk.new }
{
    let mut value = turn.take(rt, &mut desk.seat);
    value.stop();
    turn.give(&mut desk.seat, value);
    bell.ring();
}
