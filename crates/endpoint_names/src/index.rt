//! Items by their keys: of several of one key the first counts.

ghost use Rattle.std.specs.Prelude.{◌≡◌, IfOk, option_copied, is_some};
ghost use Rattle.endpoint_names.specs.Keys.{keys_of, is_known, first_by};
ghost use Rattle.endpoint_names.specs.Places.{IsIndex};

use crate::key::{HasSign, Key};
use crate::places::{Places, places_of};
use chor_base::Memory;
use std::alloc::Global;

// Items by their keys. Of several of one key the first counts.
pub struct Index<'a, T: HasSign> {
    pub items: &'a [T],
    places: Places,
    ghost is_index: { IsIndex (keys_of T.sign_of items.now) places },
}

impl<T: HasSign> Drop for Index<'_, T> {
    fn drop(self) {
        let Index {
            items: _,
            places: _,
        } = self;
    }
}

impl<'a, T: HasSign> Index<'a, T> {
    // The items, of which each can be found by its key.
    pub fn new(alloc: Global, items: &'a [T]) -> Result<Self, Memory>
        ensures { IfOk result (λ index. index.items.now ≡ items.now) }
    {
        let (places, _) = places_of(alloc, items)?;
        Ok(Index { items, places })
    }

    // The first item of a key.
    pub fn find(&self, key: Key) -> Option<&'a T>
        ensures { option_copied result ≡ first_by T.sign_of self.now.items.now key }
    {
        match self.places.get(key) {
            Some(place) => self.items.get(place),
            None => None,
        }
    }

    // Whether an item has a key.
    pub fn has(&self, key: Key) -> bool
        ensures { result ≡ is_known (keys_of T.sign_of self.now.items.now) key }
    {
        self.places.get(key).is_some()
    }
}
