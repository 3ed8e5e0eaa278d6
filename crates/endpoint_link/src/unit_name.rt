//! What tells a unit from others of its kind.

ghost use Rattle.std.specs.Prelude.{◌≡◌, IfOk, map};
ghost use Rattle.endpoint_link.specs.declared.unit_name.UnitName.{UnitName as AnyName};
ghost use Rattle.endpoint_link.specs.Indexes.{name_of_channel, name_of_procedure, name_of_service, name_of_process, renumbered_unit};

use crate::renumbering::Renumbering;
use chor_base::{List, Memory, NameId};
use endpoint_code::{Channel, Procedure, Process, ServiceCode};
use std::alloc::Global;

/// What tells a unit from others of its kind: its name, and for a procedure its process or for a
/// service its role.
#[derive(Clone, Copy, PartialEq, Eq, Hash)]
pub struct UnitName {
    pub name: NameId,
    pub second: Option<NameId>,
}

/// A unit that is told by its name from others of its kind.
pub trait HasUnitName {
    ghost name_of: { Self → AnyName };

    /// Its name.
    fn unit_name(&self) -> UnitName
        ensures { result ≡ name_of self.now };
}

impl HasUnitName for Channel {
    ghost name_of = { name_of_channel };

    fn unit_name(&self) -> UnitName {
        UnitName {
            name: self.name,
            second: None,
        }
    }
}

impl HasUnitName for Procedure {
    ghost name_of = { name_of_procedure };

    fn unit_name(&self) -> UnitName {
        UnitName {
            name: self.name,
            second: Some(self.param),
        }
    }
}

impl HasUnitName for ServiceCode {
    ghost name_of = { name_of_service };

    fn unit_name(&self) -> UnitName {
        UnitName {
            name: self.channel,
            second: Some(self.role),
        }
    }
}

impl HasUnitName for Process {
    ghost name_of = { name_of_process };

    fn unit_name(&self) -> UnitName {
        UnitName {
            name: self.name,
            second: None,
        }
    }
}

/// The names of units.
pub fn names_of<T: HasUnitName>(alloc: Global, units: &[T]) -> Result<List<UnitName>, Memory>
    ensures { IfOk result (λ list. list ≡ map T.name_of units.now) }
{
    let mut list = List::new(alloc);
    for unit in units {
        list.push(unit.unit_name())?;
    }
    Ok(list)
}

impl Renumbering {
    /// The name of a given unit, with the new numbers.
    pub fn unit_name(&self, name: UnitName) -> UnitName
        ensures { result ≡ renumbered_unit self.now name }
    {
        let second = match name.second {
            Some(second) => Some(self.name(second)),
            None => None,
        };
        UnitName {
            name: self.name(name.name),
            second,
        }
    }

    /// The names of given units, with the new numbers.
    pub fn unit_names(&self, alloc: Global, names: &[UnitName]) -> Result<List<UnitName>, Memory>
        ensures { IfOk result (λ list. list ≡ map (renumbered_unit self.now) names.now) }
    {
        let mut list = List::new(alloc);
        for name in names {
            list.push(self.unit_name(*name))?;
        }
        Ok(list)
    }
}
