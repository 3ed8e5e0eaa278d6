//! Workers who make a run together.

ghost use Rattle.std.specs.Prelude.{◌≡◌, ◌≤◌, [], IfOk};
ghost use Rattle.chor_host.specs.Tables.{functions_of};
ghost use Rattle.turn_lock.specs.Seats.{turn_origin};
ghost use Rattle.workers.specs.Desks.{AreSeated, AreAtWork};
ghost use Rattle.workers.specs.Turns.{Suits, MayBegin};

use crate::desks::Desk;
use crate::next::Shared;
use crate::programs::Programs;
use crate::seats::{desk_at, seat_all, take_in};
use crate::side_by_side::set_to_work;
use chor_base::Memory;
use chor_host::HostTable;
use chor_io::Gate;
use crew::Share;
use endpoint_code::Endpoints;
use std::alloc::Global;
use std::sync::Wait;
use std::thread::Threads;
use turn_lock::{Told, Turn};

// How often a worker that has nothing to do looks for those that haven't begun, at first, and once threads
// couldn't be made for all. Then workers go one after another for as far as each comes.
const PATIENCE: u64 = 1 << 20;

const LITTLE_PATIENCE: u64 = 64;

/// A run that workers share, and their desks. The first worker's desk is the last one.
#[derive(Drop)]
pub struct Team<T: Told> {
    pub turn: Turn<T>,
    pub desks: Vec<Desk<T>>,
}

impl<T: Shared + Drop> Team<T> {
    /// A team of so many workers, 1 to 16, and a run that has no event yet. After `Memory` the run is
    /// dropped.
    pub fn new(
        alloc: Global,
        run: T,
        workers: u32,
        endpoints: &Endpoints,
    ) -> Result<Team<T>, Memory>
        requires workers { (1 ≤ workers) × (workers ≤ 16) }
        requires fresh { T.history run ≡ [] }
        requires begins { MayBegin endpoints.now workers (T.about (T.origin run)) }
        ensures seats { IfOk result (λ team. AreSeated T.origin team.turn team.desks.items) }
        ensures at_work { IfOk result (λ team. AreAtWork T.origin T.about team.turn team.desks.items) }
        ensures origin { IfOk result (λ team. turn_origin T.origin team.turn ≡ T.origin run) }
    {
        let mut desks = Vec::with_capacity(alloc, workers as usize)?;
        let (turn, mut seat) = Turn::new(alloc, run, workers)?;
        seat_all(alloc, &turn, endpoints, &mut seat, &mut desks, workers)?;
        let share = Share { worker: 0, workers };
        let chief = desk_at(alloc, &turn, endpoints, seat, share)?;
        desks.push_reserved(chief);
        Ok(Team { turn, desks })
    }

    /// The workers make events until nothing is left to do. The call waits until all have ended.
    pub fn work<R: Threads + Wait + Sync, G: Gate + Sync, P: Programs + Sync>(
        &mut self,
        rt: &R,
        programs: &P,
        hosts: &HostTable,
        gate: &G,
    )
    where
        T: Send,
        requires suits { Suits (P.are programs.now) (functions_of hosts.now) (T.about (turn_origin T.origin self.old.turn)) }
        requires seats { AreSeated T.origin self.old.turn self.old.desks.items }
        requires at_work { AreAtWork T.origin T.about self.old.turn self.old.desks.items }
        ensures seats { AreSeated T.origin self.new.turn self.new.desks.items }
        ensures origin { turn_origin T.origin self.new.turn ≡ turn_origin T.origin self.old.turn }
    {
        let mut patience = PATIENCE;
        for _ in rt.forever() {
            set_to_work(
                rt,
                &self.turn,
                programs,
                hosts,
                gate,
                patience,
                self.desks.as_mut_slice(),
            );
            if have_ended(self.desks.as_slice()) {
                return;
            }
            patience = LITTLE_PATIENCE;
        }
        unreachable!()
    }

    /// The run, once all workers have ended.
    pub fn close(self) -> T
        requires { AreSeated T.origin self.turn self.desks.items }
        ensures { T.origin result ≡ turn_origin T.origin self.turn }
    {
        let Team { turn, mut desks } = self;
        let mut chief = desks.pop().unwrap();
        take_in(&turn, &mut chief, desks);
        let Desk {
            seat,
            number: _,
            crew: _,
            heard: _,
            turns: _,
            ended: _,
        } = chief;
        turn.close(seat)
    }
}

// Whether the workers at all these desks have ended.
fn have_ended<T: Told>(desks: &[Desk<T>]) -> bool {
    for desk in desks {
        if !desk.ended {
            return false;
        }
    }
    true
}
