//! The places of the sends, or of the receipts, triple by triple.

ghost use Rattle.std.specs.Prelude.{ℕ, ◌≡◌, [], OnOk, None};
ghost use Rattle.chor_base.specs.Events.{Triple, triple_eq};
ghost use Rattle.causal_order.specs.Index.{triple_of, places_on, count_on, place_on, IsListOf, HasOneMore};

use chor_base::{List, Memory, NameId};
use indexmap::IndexMap;
use recent_places::RecentPlaces;
use std::alloc::Global;

/// A session, a sender's role in it and a receiver's role.
#[derive(Clone, Copy, PartialEq, Eq, Hash)]
pub struct Direction {
    pub sid: u32,
    pub from: NameId,
    pub to: NameId,
}

impl Direction {
    // The numbers by which the list of a direction is found again.
    fn numbers(self) -> (u32, u32, u32) {
        (self.sid, self.from.0, self.to.0)
    }
}

/// For each direction the places of its events, in ascending order.
pub struct EventIndex {
    alloc: Global,
    lists: IndexMap<Direction, List<u64>>,
    recent: RecentPlaces,
}

impl Drop for EventIndex {
    fn drop(self) {
        let EventIndex {
            alloc: _,
            lists: _,
            recent: _,
        } = self;
    }
}

impl EventIndex {
    /// An index without events. It takes no memory.
    pub fn new(alloc: Global) -> Self
        ensures counts { (t : Triple) → count_on result t ≡ 0 }
        ensures places { (t : Triple) (n : ℕ) → place_on result t n ≡ None }
    {
        EventIndex {
            alloc,
            lists: IndexMap::new(alloc),
            recent: RecentPlaces::new(alloc),
        }
    }

    // Where a direction's list is.
    fn list_of(&self, direction: Direction) -> Option<usize>
        ensures { IsListOf self.now.lists.entries (triple_of direction) result }
    {
        let recent = self.recent.get(direction.numbers());
        match self.lists.get_index(recent) {
            Some((other, _)) if direction == *other => Some(recent),
            _ => self.found(direction),
        }
    }

    // The same, looked for by hash.
    fn found(&self, direction: Direction) -> Option<usize>
        ensures { IsListOf self.now.lists.entries (triple_of direction) result }
    {
        match self.lists.get_full(&direction) {
            Some((list, _, _)) => Some(list),
            None => None,
        }
    }

    // The places of a direction's events.
    fn places(&self, direction: Direction) -> &[u64]
        ensures { result.now ≡ places_on self.now (triple_of direction) }
    {
        let Some(list) = self.list_of(direction) else {
            return &[];
        };
        match self.lists.get_index(list) {
            Some((_, places)) => places.as_slice(),
            None => unreachable!(),
        }
    }

    /// How many events a direction has.
    pub fn count(&self, direction: Direction) -> u64
        ensures { result ≡ count_on self.now (triple_of direction) }
    {
        self.places(direction).len() as u64
    }

    /// The place of a direction's event with this number, counted from 0, if it is there.
    pub fn place(&self, direction: Direction, number: u64) -> Option<u64>
        ensures { result ≡ place_on self.now (triple_of direction) number }
    {
        self.places(direction).get(number as usize).copied()
    }

    /// Adds an event of a direction, with its place.
    pub fn add(&mut self, direction: Direction, place: u64) -> Result<(), Memory>
        ensures { OnOk result (HasOneMore self.old (λ t. triple_eq t (triple_of direction)) place self.new) }
    {
        let Some(list) = self.list_of(direction) else {
            return self.open(direction, place);
        };
        self.recent.note(direction.numbers(), list);
        match self.lists.get_index_mut(list) {
            Some(places) => places.push(place),
            None => unreachable!(),
        }
    }

    // Adds the first event of a direction, with its place.
    fn open(&mut self, direction: Direction, place: u64) -> Result<(), Memory>
        requires { places_on self.old (triple_of direction) ≡ [] }
        ensures { OnOk result (HasOneMore self.old (λ t. triple_eq t (triple_of direction)) place self.new) }
    {
        let mut places = List::new(self.alloc);
        places.push(place)?;
        self.recent.reserve();
        self.lists.insert(direction, places)?;
        Ok(())
    }
}
