//! Two names, each in the place of the other.

ghost use Rattle.std.specs.Prelude.{◌≡◌, IfOk, map};
ghost use Rattle.projection.specs.Renamed.{exchanged};

use chor_base::{List, Memory, NameId};
use std::alloc::Global;

/// Two names of sessions, each of which stands in the place of the other.
#[derive(Clone, Copy, PartialEq, Eq)]
pub struct Exchange {
    pub one: NameId,
    pub other: NameId,
}

impl Exchange {
    /// The name that stands in the place of this one.
    pub fn of(&self, name: NameId) -> NameId
        ensures { result ≡ exchanged self.now.one self.now.other name }
    {
        if name == self.one {
            self.other
        } else if name == self.other {
            self.one
        } else {
            name
        }
    }

    /// The names that stand in the places of these.
    pub fn of_all(&self, alloc: Global, names: &[NameId]) -> Result<List<NameId>, Memory>
        ensures { IfOk result (λ list. list ≡ map (exchanged self.now.one self.now.other) names.now) }
    {
        let mut list = List::new(alloc);
        for name in names {
            list.push(self.of(*name))?;
        }
        Ok(list)
    }
}
