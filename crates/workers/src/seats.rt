//! Who sits where.

ghost use Rattle.std.specs.Prelude.{◌≡◌, ℕ, ◌<◌, ◌≤◌, ◌+◌, ◌^◌, [], length, vec_capacity, IfOk, OnOk};
ghost use Rattle.chor_host.specs.Functions.{Function};
ghost use Rattle.turn_lock.specs.Seats.{view, turn_origin, IsSeatOf, IsIdle};
ghost use Rattle.workers.specs.Desks.{IsReady, IsAtWork, AreAtWork, InOrder, TookFrom};
ghost use Rattle.workers.specs.Turns.{MayBegin};

use crate::desks::Desk;
use crate::next::Shared;
use chor_base::Memory;
use crew::{Crew, Share};
use endpoint_code::Endpoints;
use std::alloc::Global;
use turn_lock::{Seat, Told, Turn};

/// The desk of a worker that has taken no turn yet.
pub fn desk_at<T: Shared>(
    alloc: Global,
    turn: &Turn<T>,
    endpoints: &Endpoints,
    seat: Seat<T>,
    share: Share,
) -> Result<Desk<T>, Memory>
    requires begins { MayBegin endpoints.now share.workers (T.about (turn_origin T.origin turn.now)) }
    requires seat { IsSeatOf T.origin turn.now seat × IsIdle seat × ((view seat).number ≡ share.worker + 1) }
    requires fresh { ((view seat).seen ≡ []) × ((view seat).own ≡ []) }
    ensures ready { IfOk result (λ desk. IsReady T.origin turn.now desk × (desk.number ≡ share.worker + 1)) }
    ensures at_work { IfOk result (λ desk. IsAtWork T.origin T.about turn.now desk) }
    ensures seat { IfOk result (λ desk. desk.seat ≡ seat) }
{
    let crew = Crew::new(alloc, endpoints, share)?;
    Ok(Desk {
        seat,
        number: share.entry(),
        crew,
        heard: 0,
        turns: 0,
        ended: false,
    })
}

/// Makes the other desks. The memory for their list was taken before.
pub fn seat_all<T: Shared>(
    alloc: Global,
    turn: &Turn<T>,
    endpoints: &Endpoints,
    chief: &mut Seat<T>,
    desks: &mut Vec<Desk<T>>,
    workers: u32,
) -> Result<(), Memory>
    requires begins { MayBegin endpoints.now workers (T.about (turn_origin T.origin turn.now)) }
    requires chief { IsSeatOf T.origin turn.now chief.old × IsIdle chief.old × ((view chief.old).number ≡ 1) }
    requires fresh { ((view chief.old).made ≡ 1) × ((view chief.old).taken ≡ []) × ((view chief.old).seen ≡ []) × ((view chief.old).own ≡ []) }
    requires desks { (desks.old.items ≡ []) × (workers ≤ vec_capacity desks.old) }
    requires workers { (1 ≤ workers) × (workers ≤ 16) × (turn.now.seats ≡ workers) }
    ensures chief { OnOk result (IsSeatOf T.origin turn.now chief.new × IsIdle chief.new × ((view chief.new).number ≡ 1)) }
    ensures fresh { OnOk result (((view chief.new).taken ≡ []) × ((view chief.new).seen ≡ []) × ((view chief.new).own ≡ [])) }
    ensures made { OnOk result (((view chief.new).made ≡ workers) × (length desks.new.items + 1 ≡ workers)) }
    ensures room { OnOk result (vec_capacity desks.new ≡ vec_capacity desks.old) }
    ensures desks { OnOk result (InOrder T.origin turn.now desks.new.items × AreAtWork T.origin T.about turn.now desks.new.items) }
{
    let mut made = 1;
    while made < workers {
        let Some(seat) = turn.split(chief) else {
            unreachable!()
        };
        let share = Share {
            worker: made,
            workers,
        };
        let desk = desk_at(alloc, turn, endpoints, seat, share)?;
        made += 1;
        desks.push_reserved(desk);
    }
    Ok(())
}

/// Takes the other seats in, the last one first.
pub fn take_in<T: Told + Drop>(turn: &Turn<T>, chief: &mut Desk<T>, mut desks: Vec<Desk<T>>)
    requires chief { IsReady T.origin turn.now chief.old × (chief.old.number ≡ 1) }
    requires desks { InOrder T.origin turn.now desks.items }
    requires all { (view chief.old.seat).made ≡ length desks.items + 1 }
    requires none { (view chief.old.seat).taken ≡ [] }
    ensures chief { IsReady T.origin turn.now chief.new × (chief.new.number ≡ 1) }
    ensures all { TookFrom 2 (view chief.new.seat).made (view chief.new.seat).taken }
{
    while let Some(desk) = desks.pop() {
        let Desk {
            seat,
            number: _,
            crew: _,
            heard: _,
            turns: _,
            ended: _,
        } = desk;
        turn.join(&mut chief.seat, seat);
    }
}
