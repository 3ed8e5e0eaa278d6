//! Units by their names.

ghost use Rattle.std.specs.Prelude.{◌≡◌, IfOk, OnOk, None, length};
ghost use Rattle.endpoint_link.specs.declared.unit_name.UnitName.{UnitName as AnyName};
ghost use Rattle.endpoint_link.specs.Indexes.{standing_of, standing_after, standing_with, IsIndex, IsPartNamed};

use crate::unit_name::UnitName;
use chor_base::{List, Memory};
use std::alloc::Global;
use std::collections::HashMap;

/// Where a name stands in a list of names.
#[derive(Clone, Copy, PartialEq, Eq)]
pub enum Standing {
    /// At this place alone.
    Once(u32),
    /// Maybe at several places.
    Again,
}

impl Standing {
    // Where a name stands that stands at this place too.
    fn after(place: u32, standing: Option<Standing>) -> Self
        ensures { result ≡ standing_after place standing }
    {
        match standing {
            Some(_) => Standing::Again,
            None => Standing::Once(place),
        }
    }
}

/// Where each name of a list stands.
pub struct Standings {
    entries: HashMap<UnitName, Standing>,
}

impl Drop for Standings {
    fn drop(self) {
        let Standings { entries: _ } = self;
    }
}

impl Standings {
    // No name stands anywhere.
    fn new(alloc: Global) -> Self
        ensures { (k : AnyName) → standing_of result k ≡ None }
    {
        Standings {
            entries: HashMap::new(alloc),
        }
    }

    // Where a name stands, if anywhere.
    fn get(&self, name: UnitName) -> Option<Standing>
        ensures { result ≡ standing_of self.now name }
    {
        self.entries.get(&name).copied()
    }

    // A name that stands at this place too.
    fn add(&mut self, name: UnitName, place: u32) -> Result<(), Memory>
        ensures { OnOk result ((k : AnyName) → standing_of self.new k ≡ standing_with place self.old name k) }
    {
        let standing = Standing::after(place, self.get(name));
        self.entries.insert(name, standing)?;
        Ok(())
    }

    // Where each of these names stands.
    fn collect(alloc: Global, names: &List<UnitName>) -> Result<Self, Memory>
        ensures { IfOk result (IsIndex names.now) }
    {
        let mut standings = Standings::new(alloc);
        for place in 0..names.count() {
            standings.add(*names.at(place as usize), place)?;
        }
        Ok(standings)
    }
}

/// The names of the units of a list, each of which can be found.
pub struct Index {
    pub names: List<UnitName>,
    standings: Standings,
    ghost is_index: { IsIndex names standings },
}

impl Drop for Index {
    fn drop(self) {
        let Index {
            names: _,
            standings: _,
        } = self;
    }
}

impl Index {
    /// An index of units with these names.
    pub fn new(alloc: Global, names: List<UnitName>) -> Result<Self, Memory>
        ensures { IfOk result (λ index. index.names ≡ names) }
    {
        let standings = Standings::collect(alloc, &names)?;
        Ok(Index { names, standings })
    }

    /// A part of the list of the units, in which all units of a name are: it is one unit where the
    /// name stands once.
    pub fn part<'a, T>(&self, units: &'a [T], name: UnitName) -> &'a [T]
        requires { length units.now ≡ length self.now.names }
        ensures { IsPartNamed self.now.names name units.now result.now }
    {
        match self.standings.get(name) {
            None => &units[..0],
            Some(Standing::Once(place)) => {
                let place = place as usize;
                &units[place..place + 1]
            }
            Some(Standing::Again) => units,
        }
    }
}
