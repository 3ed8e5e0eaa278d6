//! Workers side by side.

ghost use Rattle.std.specs.Prelude.{◌≡◌, ℕ, ◌<◌, length, slice_index_or};
ghost use Rattle.chor_host.specs.Tables.{functions_of};
ghost use Rattle.turn_lock.specs.Seats.{turn_origin};
ghost use Rattle.workers.specs.Desks.{IsReady, MayGoOn, AreToGoOn, HaveWorked, Stays};
ghost use Rattle.workers.specs.Turns.{Suits};

use crate::bells::Bell;
use crate::desks::Desk;
use crate::next::Shared;
use crate::programs::Programs;
use crate::worker::work;
use chor_host::HostTable;
use chor_io::Gate;
use std::sync::Wait;
use std::thread;
use std::thread::Threads;
use turn_lock::Turn;

/// Each desk's worker works, side by side with the others, until it ends, or leaves since others haven't
/// begun, for which it has looked so often.
#[tactic(auto, using(crate::proofs::Crossing::bell_sync))]
pub fn set_to_work<T: Shared + Send, R: Threads + Wait + Sync, G: Gate + Sync, P: Programs + Sync>(
    rt: &R,
    turn: &Turn<T>,
    programs: &P,
    hosts: &HostTable,
    gate: &G,
    patience: u64,
    desks: &mut [Desk<T>],
)
    requires suits { Suits (P.are programs.now) (functions_of hosts.now) (T.about (turn_origin T.origin turn.now)) }
    requires ready { (i : ℕ) (d : _) → i < length desks.old → IsReady T.origin turn.now (slice_index_or desks.old i d) }
    requires go_on { AreToGoOn T.origin T.about turn.now desks.old }
    ensures length { length desks.new ≡ length desks.old }
    ensures each { HaveWorked T.origin T.about turn.now desks.old desks.new }
{
    let bell = Bell::new(desks.len() as u64, patience);
    let bell = &bell;
    thread::for_each_mut(
        rt,
        desks,
        16,
        &|_, desk|
            requires suits { Suits (P.are programs.now) (functions_of hosts.now) (T.about (turn_origin T.origin turn.now)) }
            requires ready { IsReady T.origin turn.now desk.now × MayGoOn T.origin T.about turn.now desk.now }
            ensures { IsReady T.origin turn.entry.now desk.exit.now × Stays desk.entry.now desk.exit.now × MayGoOn T.origin T.about turn.entry.now desk.exit.now }
        { work(rt, turn, bell, programs.endpoints(), hosts, gate, desk) },
    );
}
