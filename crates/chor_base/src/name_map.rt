//! Finite maps from names.

ghost use Rattle.std.specs.Prelude.{◌≡◌, ◌≤◌, ◌+◌, ◌⊎◌, IfOk, OnOk, IsOk, is_some, true};
ghost use Rattle.std.specs.FinMap as fin;
ghost use Rattle.chor_base.specs.NameMap.{takes_first};

use crate::memory::Memory;
use crate::names::NameId;
use crate::value::Value;
use std::alloc::Global;
use std::collections::HashMap;
use std::marker::Model;

/// What some names stand for, each for one thing. Contracts see the finite map from the names'
/// numbers, and how many names more fit without taking memory.
pub struct NameMap<V> {
    // The name that came first, which is found without a hash, and what it stands for.
    first: Option<(NameId, V)>,
    rest: HashMap<NameId, V>,
}

impl<V: Drop> Drop for NameMap<V> {
    fn drop(self) {
        let NameMap { first: _, rest: _ } = self;
    }
}

/// The variables of one process that are set.
pub type Vars = NameMap<Value>;

impl<V> Model for NameMap<V> {
    ghost use Rattle.std.specs.Prelude.{ℕ, refl};
    ghost use Rattle.std.specs.Coded.{code_by, coded×, coded_ℕ};
    ghost use Rattle.std.specs.FinMap as fin;
    ghost use Rattle.std.specs.HashMap.{spare};
    ghost use Rattle.chor_base.specs.NameMap.{NameMapView, FromNames, map_of, with_first};

    ghost Value = { NameMapView V };

    ghost coded = { code_by (FromNames V × ℕ) (coded× (fin.code coded_ℕ V.code) coded_ℕ) (λ v. (v.map, v.spare)) (λ p. record { map = p.0; spare = p.1 }) (λ _. refl) };

    ghost view = { λ a. record { map = with_first a.first (map_of a.rest.entries); spare = spare a.rest } };
}

// Whether a name is the one that came first, or none has come.
fn is_first<V: Copy>(first: Option<(NameId, V)>, name: NameId) -> bool
    ensures { result ≡ takes_first first name }
{
    match first {
        Some((own, _)) => own == name,
        None => true,
    }
}

impl<V> NameMap<V> {
    /// No name stands for anything. It takes no memory.
    pub fn new(alloc: Global) -> Self
        ensures { result.map ≡ fin.empty }
    {
        NameMap {
            first: None,
            rest: HashMap::new(alloc),
        }
    }
}

impl<V: Copy> NameMap<V> {
    /// The same map once more.
    pub fn copy(&self, alloc: Global) -> Result<Self, Memory>
        ensures { IfOk result (λ map. map.map ≡ self.now.map) }
    {
        let mut rest = HashMap::new(alloc);
        for (name, value) in self.rest.iter() {
            rest.insert(*name, *value)?;
        }
        Ok(NameMap {
            first: self.first,
            rest,
        })
    }

    /// What a name stands for, if anything. The name that came first is found without a hash.
    pub fn get(&self, name: NameId) -> Option<V>
        ensures { result ≡ fin.get self.now.map name.0 }
    {
        if let Some((first, value)) = self.first {
            if first == name {
                return Some(value);
            }
        }
        self.rest.get(&name).copied()
    }

    /// Takes memory for one name more. Afterwards `set` of any name takes none.
    pub fn reserve(&mut self) -> Result<(), Memory>
        ensures map { self.new.map ≡ self.old.map }
        ensures ok { OnOk result (1 ≤ self.new.spare) }
        ensures kept { self.old.spare ≤ self.new.spare }
        ensures succeeds { 1 ≤ self.old.spare → IsOk result }
    {
        self.rest.reserve(1)?;
        Ok(())
    }

    /// Lets a name for which there is room stand for something.
    pub fn set(&mut self, name: NameId, value: V)
        requires { (is_some (fin.get self.old.map name.0) ≡ true) ⊎ (1 ≤ self.old.spare) }
        ensures map { self.new.map ≡ fin.insert self.old.map name.0 value }
        ensures spare { self.old.spare ≤ self.new.spare + 1 }
    {
        if is_first(self.first, name) {
            self.first = Some((name, value));
            return;
        }
        match self.rest.insert(name, value) {
            Ok(_) => {}
            Err(_) => unreachable!(),
        }
    }
}
