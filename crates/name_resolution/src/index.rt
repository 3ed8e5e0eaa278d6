//! Items by their names: of several of one name the first counts.

ghost use Rattle.std.specs.Prelude.{◌≡◌, IfOk, OnOk, option_copied, is_some};
ghost use Rattle.chor_tree.specs.Names.{is_among, first_named, unknown};
ghost use Rattle.chor_base.specs.Faults.{first_of_all};
ghost use Rattle.chor_base.specs.FirstPlaces.{with_place};
ghost use Rattle.name_resolution.specs.Places.{names_of, place_in, IsIndex};

use crate::named::HasName;
use chor_base::{Fault, Memory, NameId, NameMap, Rule, fault_if};
use chor_tree::Named;
use std::alloc::Global;

/// Items by their names. Of several of one name the first counts.
pub struct Index<'a, T: HasName> {
    pub items: &'a [T],
    // Where the first item of each name stands.
    places: NameMap<usize>,
    ghost is_index: { IsIndex (names_of T.name_of items.now) places.map },
}

impl<T: HasName> Drop for Index<'_, T> {
    fn drop(self) {
        let Index {
            items: _,
            places: _,
        } = self;
    }
}

impl<'a, T: HasName> Index<'a, T> {
    /// The items, of which each can be found by its name.
    pub fn new(alloc: Global, items: &'a [T]) -> Result<Self, Memory>
        ensures { IfOk result (λ index. index.items.now ≡ items.now) }
    {
        let places = places(alloc, items)?;
        Ok(Index { items, places })
    }

    /// The place of the first item of a name.
    pub fn place(&self, name: NameId) -> Option<usize>
        ensures { result ≡ place_in (names_of T.name_of self.now.items.now) name }
    {
        self.places.get(name)
    }

    /// The first item of a name.
    pub fn find(&self, name: NameId) -> Option<&'a T>
        ensures { option_copied result ≡ first_named T.name_of self.now.items.now name }
    {
        match self.places.get(name) {
            Some(place) => self.items.get(place),
            None => None,
        }
    }

    /// A name that no item has: N1 is violated.
    pub fn unknown(&self, name: &Named) -> Option<Fault>
        ensures { result ≡ first_of_all (unknown (names_of T.name_of self.now.items.now) name.now) }
    {
        fault_if(!self.has(name.name), Rule::N1, name.place)
    }

    /// Whether an item has a name.
    pub fn has(&self, name: NameId) -> bool
        ensures { result ≡ is_among (names_of T.name_of self.now.items.now) name }
    {
        self.places.get(name).is_some()
    }
}

// Where the first item of each name stands.
fn places<T: HasName>(alloc: Global, items: &[T]) -> Result<NameMap<usize>, Memory>
    ensures { IfOk result (λ places. IsIndex (names_of T.name_of items.now) places.map) }
{
    let mut places = NameMap::new(alloc);
    for (place, item) in items.iter().enumerate() {
        add_first(&mut places, item.named().name, place)?;
    }
    Ok(places)
}

// The place of a name that has none yet.
fn add_first(places: &mut NameMap<usize>, name: NameId, place: usize) -> Result<(), Memory>
    ensures { OnOk result (places.new.map ≡ with_place places.old.map name place) }
{
    if places.get(name).is_none() {
        places.reserve()?;
        places.set(name, place);
    }
    Ok(())
}
