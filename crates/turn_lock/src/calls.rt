//! The calls of a turn.
ghost use Rattle.std.specs.Prelude.{◌≡◌, ◌≤◌, ◌<◌, ◌%◌, ◌^◌, ◌∷◌, [], true, false, IfOk, IfSome, MatchOption, Some};
ghost use Rattle.turn_lock.specs.Turns.{first_view, split_left, split_right, joined, idle_after, holding, Extends, Finds, TookAll, IsAllOf};
ghost use Rattle.turn_lock.specs.Seats.{view, turn_origin, IsSeatOf, IsIdle, Holds, IsTaken};

use crate::parts::{Seat, Turn};
use crate::told::Told;
use crate::views::{Draw, Look, Parts, PassOn, TakesIn};
use atomic_table::Table;
use chor_base::Memory;
use std::alloc::Global;
use std::snapshot::Snapshot;
use std::sync::Wait;

impl<T: Told> Turn<T> {
    /// A turn of at most so many seats over a value to which nothing was done yet, and its first seat.
    /// After `Memory` the value is dropped.
    pub fn new(alloc: Global, value: T, seats: u32) -> Result<(Turn<T>, Seat<T>), Memory>
    where
        T: Drop,
        requires seats { (1 ≤ seats) × (seats ≤ 16) }
        requires fresh { T.history value ≡ [] }
        ensures seat { IfOk result (λ r. IsSeatOf T.origin r.0 r.1 × IsIdle r.1) }
        ensures view { IfOk result (λ r. view r.1 ≡ first_view (T.origin value)) }
        ensures turn { IfOk result (λ r. (turn_origin T.origin r.0 ≡ T.origin value) × (r.0.seats ≡ seats)) }
    {
        let about = Snapshot::of(&value);
        let mut slots = Vec::new(alloc);
        slots.push(Some(value))?;
        let Ok((table, inner)) = Table::new(alloc, &[0, 0], slots, &about) else {
            return Err(Memory);
        };
        Ok((Turn { table, seats }, Seat { inner, made: 1 }))
    }

    // Looks until the ticket is up.
    fn wait<R: Wait>(&self, rt: &R, seat: &mut Seat<T>, ticket: u64)
        requires seat { IsSeatOf T.origin self.now seat.old × (seat.old.inner.me.1 ≡ []) }
        requires waits { ((view seat.old).waits ≡ true) × ((view seat.old).has ≡ false) × (ticket ≡ (view seat.old).ticket % 2 ^ 64) }
        ensures same { (seat.new.inner.table_id ≡ seat.old.inner.table_id) × (seat.new.made ≡ seat.old.made) }
        ensures found { (x : T) × (seat.new.inner.me ≡ (holding (view seat.old) (T.history x), (0, Some x) ∷ [])) × Finds T.origin T.history (view seat.old) x }
    {
        for _ in rt.forever() {
            let found = self.table.shared.load::<Look>(&mut seat.inner, 1);
            if found == ticket {
                return;
            }
            self.table.shared.park(rt, 1, (found % (1 << 32)) as u32);
        }
        unreachable!()
    }

    /// Draws a ticket and waits for its turn. It allocates nothing.
    pub fn take<R: Wait>(&self, rt: &R, seat: &mut Seat<T>) -> T
        requires { IsSeatOf T.origin self.now seat.old × IsIdle seat.old }
        ensures seat { IsSeatOf T.origin self.now seat.new × Holds seat.new }
        ensures view { IsTaken (view seat.old) (T.history result) (view seat.new) }
        ensures value { Finds T.origin T.history (view seat.old) result }
    {
        let ticket = self.table.shared.fetch_add::<Draw>(&mut seat.inner, 0, 1);
        self.wait(rt, seat, ticket);
        match self.table.shared.exchange(&mut seat.inner, 0, None) {
            Some(value) => value,
            None => unreachable!(),
        }
    }

    /// Gives the value back and passes the turn on. It allocates nothing.
    pub fn give(&self, seat: &mut Seat<T>, value: T)
        requires seat { IsSeatOf T.origin self.now seat.old × Holds seat.old }
        requires value { ((view seat.old).origin ≡ Some (T.origin value)) × Extends (view seat.old) (T.history value) }
        ensures seat { IsSeatOf T.origin self.now seat.new × IsIdle seat.new }
        ensures view { view seat.new ≡ idle_after (view seat.old) (T.history value) }
    {
        match self.table.shared.exchange(&mut seat.inner, 0, Some(value)) {
            Some(_) => unreachable!(),
            None => (),
        }
        self.table.shared.fetch_add::<PassOn>(&mut seat.inner, 1, 1);
        self.table.shared.wake_all(1);
    }

    /// A seat with the next number, made by the first seat; none where all seats are made. It allocates
    /// nothing.
    pub fn split(&self, seat: &mut Seat<T>) -> Option<Seat<T>>
        requires { IsSeatOf T.origin self.now seat.old × ((view seat.old).number ≡ 1) × (seat.old.inner.me.1 ≡ []) }
        ensures seat { IsSeatOf T.origin self.now seat.new × (seat.new.inner.me.1 ≡ []) }
        ensures made { MatchOption result ((view seat.new ≡ view seat.old) × (self.now.seats ≤ (view seat.old).made)) (λ other. ((view seat.old).made < self.now.seats) × (view seat.new ≡ split_left (view seat.old))) }
        ensures other { IfSome result (λ other. IsSeatOf T.origin self.now other × IsIdle other × (view other ≡ split_right (view seat.old))) }
    {
        if seat.made >= self.seats {
            return None;
        }
        let inner = self.table.shared.split_seat::<Parts>(&mut seat.inner);
        seat.made += 1;
        Some(Seat { inner, made: 0 })
    }

    /// Takes a seat in, which takes the turn no more, by the first seat. It allocates nothing.
    pub fn join(&self, seat: &mut Seat<T>, other: Seat<T>)
        requires seat { IsSeatOf T.origin self.now seat.old × ((view seat.old).number ≡ 1) × IsIdle seat.old }
        requires other { IsSeatOf T.origin self.now other × IsIdle other }
        ensures seat { IsSeatOf T.origin self.now seat.new × IsIdle seat.new }
        ensures view { view seat.new ≡ joined (view seat.old) (view other) }
    {
        let Seat {
            inner: other,
            made: _,
        } = other;
        self.table
            .shared
            .join_seat::<TakesIn>(&mut seat.inner, other);
    }

    /// The value, once the first seat has taken in all others. It allocates nothing.
    pub fn close(self, seat: Seat<T>) -> T
        requires seat { IsSeatOf T.origin self seat × ((view seat).number ≡ 1) × IsIdle seat }
        requires all { TookAll (view seat) }
        ensures origin { T.origin result ≡ turn_origin T.origin self }
        ensures history { IsAllOf (view seat) (T.history result) }
    {
        let Turn { table, seats: _ } = self;
        let Seat { inner, made: _ } = seat;
        let mut closed = table.close_with(inner);
        let slot = closed.take(0);
        closed.free();
        match slot {
            Some(value) => value,
            None => unreachable!(),
        }
    }
}
