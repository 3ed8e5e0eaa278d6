//! The queues of a network.

ghost use Rattle.std.specs.Prelude.{◌≡◌, ◌≤◌, ◌<◌, ◌+◌, true, ◌∷◌, ◌++◌, [], length, drop, OnOk, IsOk, IfSome, slice_get, None};
ghost use Rattle.chor_base.specs.Events.{Triple};
ghost use Rattle.endpoint_code.specs.Network.{has_room, loads_for, with_loads};
ghost use Rattle.post_office.specs.Lanes.{KeepsRoom, loads_in, room_on, lane_from, is_there};
ghost use Rattle.post_office.specs.Views.{loads_at};

use chor_base::{Load, Memory, NameId};
use indexmap::IndexSet;
use recent_places::RecentPlaces;
use std::alloc::Global;
use std::collections::VecDeque;
use std::marker::Model;
use std::mem::replace;

// The loads in transit from one role of a session to another.
#[derive(Drop)]
struct Lane {
    sid: u32,
    from: NameId,
    to: NameId,
    loads: VecDeque<Load>,
}

impl Model for Lane {
    ghost use Rattle.std.specs.Prelude.{◌-◌};
    ghost use Rattle.std.specs.VecDeque.{deque_capacity, deque_len};
    ghost use Rattle.post_office.specs.Lanes.{LaneView};

    ghost Value = { LaneView };

    ghost view = { λ a. record { triple = (a.sid, a.from, a.to); loads = a.loads.items; room = deque_capacity a.loads - deque_len a.loads } };
}

impl Lane {
    fn first(&self) -> Option<Load>
        ensures { result ≡ slice_get self.now.loads 0 }
    {
        self.loads.front().copied()
    }

    fn len(&self) -> usize
        ensures { result ≡ length self.now.loads }
    {
        self.loads.len()
    }

    fn reserve(&mut self) -> Result<(), Memory>
        ensures triple { self.new.triple ≡ self.old.triple }
        ensures loads { self.new.loads ≡ self.old.loads }
        ensures ok { OnOk result (1 ≤ self.new.room) }
        ensures kept { self.old.room ≤ self.new.room }
        ensures succeeds { 1 ≤ self.old.room → IsOk result }
    {
        self.loads.reserve(1)?;
        Ok(())
    }

    fn push(&mut self, load: Load)
        requires { 1 ≤ self.old.room }
        ensures triple { self.new.triple ≡ self.old.triple }
        ensures loads { self.new.loads ≡ self.old.loads ++ load ∷ [] }
        ensures room { self.old.room ≡ self.new.room + 1 }
    {
        match self.loads.push_back(load) {
            Ok(()) => {}
            Err(_) => unreachable!(),
        }
    }

    fn pop(&mut self) -> Option<Load>
        ensures first { result ≡ slice_get self.old.loads 0 }
        ensures triple { self.new.triple ≡ self.old.triple }
        ensures loads { self.new.loads ≡ drop 1 self.old.loads }
        ensures room { self.old.room ≤ self.new.room }
    {
        self.loads.pop_front()
    }
}

// A session, a sender's role in it and a receiver's role.
#[derive(Clone, Copy, PartialEq, Eq, Hash)]
struct Direction {
    sid: u32,
    from: NameId,
    to: NameId,
}

/// The queues of a network, one for each triple of a session, a sender's role and a receiver's
/// role on which something was sent.
pub struct Queues {
    // The triples of the queues, in their order.
    directions: IndexSet<Direction>,
    lanes: Vec<Lane>,
    // Room for the first load of a new queue.
    spare: VecDeque<Load>,
    recent: RecentPlaces,
}

impl Drop for Queues {
    fn drop(self) {
        let Queues {
            directions: _,
            lanes: _,
            spare: _,
            recent: _,
        } = self;
    }
}

impl Model for Queues {
    ghost use Rattle.std.specs.Prelude.{◌-◌, min, vec_capacity, vec_len};
    ghost use Rattle.std.specs.VecDeque.{deque_capacity};
    ghost use Rattle.indexmap.specs.IndexSet.{spare as directions_left};
    ghost use Rattle.post_office.specs.Lanes.{QueuesView};
    ghost use Rattle.post_office.specs.Indexed.{IsIndexed};

    ghost Value = { QueuesView };

    ghost view = { λ a. record { lanes = a.lanes.items; fresh = min (directions_left a.directions) (min (vec_capacity a.lanes - vec_len a.lanes) (deque_capacity a.spare)) } };

    ghost invariant = { λ a. IsIndexed a.directions.keys a.lanes.items a.spare.items };
}

impl Queues {
    /// No queues. It takes no memory.
    pub fn new(alloc: Global) -> Queues
        ensures { result.lanes ≡ [] }
    {
        Queues {
            directions: IndexSet::new(alloc),
            lanes: Vec::new(alloc),
            spare: VecDeque::new(alloc),
            recent: RecentPlaces::new(alloc),
        }
    }

    // The place of a triple's queue.
    fn place_of(&self, sid: u32, from: NameId, to: NameId) -> Option<usize>
        ensures place { result ≡ lane_from 0 self.now.lanes (sid, from, to) }
        ensures within { IfSome result (λ i. i < length self.now.lanes) }
    {
        let direction = Direction { sid, from, to };
        let recent = self.recent.get((sid, from.0, to.0));
        match self.directions.as_slice().get(recent) {
            Some(other) if direction == *other => Some(recent),
            _ => self.directions.get_index_of(&direction),
        }
    }

    /// The first load of a queue.
    pub fn first(&self, sid: u32, from: NameId, to: NameId) -> Option<Load>
        ensures { result ≡ slice_get (loads_for (loads_in self.now.lanes) (sid, from, to)) 0 }
    {
        let place = self.place_of(sid, from, to)?;
        self.lanes[place].first()
    }

    // How many loads a queue has.
    fn len(&self, sid: u32, from: NameId, to: NameId) -> usize
        ensures { result ≡ length (loads_for (loads_in self.now.lanes) (sid, from, to)) }
    {
        match self.place_of(sid, from, to) {
            Some(place) => self.lanes[place].len(),
            None => 0,
        }
    }

    /// Whether a queue takes one load more: always where no capacity is declared.
    pub fn has_room(&self, capacity: Option<u32>, sid: u32, from: NameId, to: NameId) -> bool
        ensures { result ≡ has_room capacity (loads_for (loads_in self.now.lanes) (sid, from, to)) }
    {
        match capacity {
            Some(most) => self.len(sid, from, to) < most as usize,
            None => true,
        }
    }

    /// Takes memory for one load more on a triple.
    pub fn reserve(&mut self, sid: u32, from: NameId, to: NameId) -> Result<(), Memory>
        ensures loads { loads_in self.new.lanes ≡ loads_in self.old.lanes }
        ensures ok { OnOk result (1 ≤ room_on self.new (sid, from, to)) }
        ensures kept { (t : Triple) → room_on self.old t ≤ room_on self.new t }
        ensures succeeds { 1 ≤ room_on self.old (sid, from, to) → IsOk result }
    {
        match self.place_of(sid, from, to) {
            Some(place) => {
                self.recent.note((sid, from.0, to.0), place);
                let lane = &mut self.lanes[place];
                lane.reserve()
            }
            None => self.reserve_lane(),
        }
    }

    // Takes memory for a new queue with its first load.
    fn reserve_lane(&mut self) -> Result<(), Memory>
        ensures lanes { self.new.lanes ≡ self.old.lanes }
        ensures ok { OnOk result (1 ≤ self.new.fresh) }
        ensures kept { self.old.fresh ≤ self.new.fresh }
        ensures succeeds { 1 ≤ self.old.fresh → IsOk result }
    {
        self.directions.reserve(1)?;
        self.lanes.reserve(1)?;
        self.spare.reserve(1)?;
        self.recent.reserve();
        Ok(())
    }

    /// Puts a load into its queue, after all others.
    pub fn put(&mut self, sid: u32, from: NameId, to: NameId, load: Load)
        requires { 1 ≤ room_on self.old (sid, from, to) }
        ensures loads { loads_in self.new.lanes ≡ with_loads (loads_in self.old.lanes) (sid, from, to) (loads_at self.old (sid, from, to) ++ load ∷ []) }
        ensures room { KeepsRoom self.old (sid, from, to) self.new }
    {
        match self.place_of(sid, from, to) {
            Some(place) => {
                let lane = &mut self.lanes[place];
                lane.push(load);
            }
            None => self.open(sid, from, to, load),
        }
    }

    // Makes a queue with its first load.
    fn open(&mut self, sid: u32, from: NameId, to: NameId, load: Load)
        requires room { 1 ≤ self.old.fresh }
        requires absent { lane_from 0 self.old.lanes (sid, from, to) ≡ None }
        ensures loads { loads_in self.new.lanes ≡ loads_in self.old.lanes ++ ((sid, from, to), load ∷ []) ∷ [] }
        ensures room { (t : Triple) → is_there self.old.lanes t ≡ true → room_on self.new t ≡ room_on self.old t }
    {
        let alloc = *self.lanes.allocator();
        let mut loads = replace(&mut self.spare, VecDeque::new(alloc));
        loads.push_back_reserved(load);
        let lane = Lane {
            sid,
            from,
            to,
            loads,
        };
        match self.directions.insert(Direction { sid, from, to }) {
            Ok(_) => {}
            Err(_) => unreachable!(),
        }
        match self.lanes.push(lane) {
            Ok(()) => {}
            Err(_) => unreachable!(),
        }
    }

    /// Takes the first load out of its queue, if there is one.
    pub fn take(&mut self, sid: u32, from: NameId, to: NameId) -> Option<Load>
        ensures first { result ≡ slice_get (loads_for (loads_in self.old.lanes) (sid, from, to)) 0 }
        ensures rest { IfSome result (λ load. loads_in self.new.lanes ≡ with_loads (loads_in self.old.lanes) (sid, from, to) (drop 1 (loads_for (loads_in self.old.lanes) (sid, from, to)))) }
        ensures room { (t : Triple) → room_on self.old t ≤ room_on self.new t }
    {
        let place = self.place_of(sid, from, to)?;
        let lane = &mut self.lanes[place];
        lane.pop()
    }
}
