//! Where keys stand first in a list, and which stand there again.

ghost use Rattle.std.specs.Prelude.{◌≡◌, [], map, not, is_some, IfOk, OnOk, Option, Some, None, if◌then◌else◌};
ghost use Rattle.chor_base.specs.Faults.{first_of_all};
ghost use Rattle.endpoint_names.specs.declared.key.Key.{Key as AnyKey};
ghost use Rattle.endpoint_names.specs.Keys.{same_key, keys_of};
ghost use Rattle.endpoint_names.specs.Faults.{repeated};
ghost use Rattle.chor_base.specs.FirstPlaces.{or_else};
ghost use Rattle.endpoint_names.specs.Places.{place_of, IsIndex};

use crate::key::{HasSign, Key};
use chor_base::{Fault, Memory, Rule, earlier, fault_if};
use std::alloc::Global;
use std::collections::HashMap;

// The place at which each key stands first.
pub struct Places {
    entries: HashMap<Key, usize>,
}

impl Drop for Places {
    fn drop(self) {
        let Places { entries: _ } = self;
    }
}

impl Places {
    fn new(alloc: Global) -> Self
        ensures { (k : AnyKey) → place_of result k ≡ None }
    {
        Places {
            entries: HashMap::new(alloc),
        }
    }

    // Where a key stands first.
    pub fn get(&self, key: Key) -> Option<usize>
        ensures { result ≡ place_of self.now key }
    {
        self.entries.get(&key).copied()
    }

    // A key that has no place yet gets this one, and whether it had none.
    fn add(&mut self, key: Key, place: usize) -> Result<bool, Memory>
        ensures places { OnOk result ((k : AnyKey) → place_of self.new k ≡ or_else (place_of self.old k) (if same_key key k then Some place else None)) }
        ensures new { IfOk result (λ b. b ≡ not (is_some (place_of self.old key))) }
    {
        if self.get(key).is_some() {
            return Ok(false);
        }
        self.entries.insert(key, place)?;
        Ok(true)
    }
}

// The places of the keys of a list, and the first item whose key stands before in the list.
pub fn places_of<T: HasSign>(alloc: Global, items: &[T]) -> Result<(Places, Option<Fault>), Memory>
    ensures places { IfOk result (λ found. IsIndex (keys_of T.sign_of items.now) found.0) }
    ensures fault { IfOk result (λ found. found.1 ≡ first_of_all (repeated [] (map T.sign_of items.now))) }
{
    let mut places = Places::new(alloc);
    let mut first = None;
    for (place, item) in items.iter().enumerate() {
        let sign = item.sign();
        let is_new = places.add(sign.key, place)?;
        first = earlier(first, fault_if(!is_new, Rule::E2, sign.place));
    }
    Ok((places, first))
}

// The first item of a list whose key stands before in the list.
pub fn twice_in<T: HasSign>(alloc: Global, items: &[T]) -> Result<Option<Fault>, Memory>
    ensures { IfOk result (λ o. o ≡ first_of_all (repeated [] (map T.sign_of items.now))) }
{
    let (_, fault) = places_of(alloc, items)?;
    Ok(fault)
}
