//! Places of a table at which something was found lately.

use std::alloc::Global;

// How many places are kept.
const SLOTS: usize = 4096;

// Where the place of something with these numbers is kept. The two directions between two roles of a
// session have slots side by side.
fn slot_of(numbers: (u32, u32, u32)) -> usize {
    let (first, second, third) = numbers;
    let pair = second.wrapping_add(third).wrapping_mul(37);
    let way = u32::from(second < third);
    let others = pair.wrapping_mul(2).wrapping_add(way);
    first.wrapping_mul(2).wrapping_add(others) as usize % SLOTS
}

/// Places of a table at which something was found lately, by the numbers that it is known by: mostly
/// those that are asked for next. They promise nothing: who takes one looks whether the right thing
/// stands there, and otherwise looks for it by hash.
pub struct RecentPlaces {
    places: Vec<usize>,
}

impl Drop for RecentPlaces {
    fn drop(self) {
        let RecentPlaces { places: _ } = self;
    }
}

impl RecentPlaces {
    /// No places. It takes no memory.
    pub fn new(alloc: Global) -> Self {
        RecentPlaces {
            places: Vec::new(alloc),
        }
    }

    /// Takes memory for places, unless there is some. Where there is none to take, no place is kept.
    pub fn reserve(&mut self) {
        if self.places.is_empty() {
            let alloc = *self.places.allocator();
            if let Ok(places) = vec![in alloc; 0; SLOTS] {
                self.places = places;
            }
        }
    }

    /// The place that was noted last for these numbers, or for others that share their slot.
    pub fn get(&self, numbers: (u32, u32, u32)) -> usize {
        match self.places.get(slot_of(numbers)) {
            Some(place) => *place,
            None => 0,
        }
    }

    /// Notes the place of something with these numbers.
    pub fn note(&mut self, numbers: (u32, u32, u32), place: usize) {
        let slot = slot_of(numbers);
        if slot < self.places.len() {
            self.places[slot] = place;
        }
    }
}
