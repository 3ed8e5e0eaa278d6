//! Linking: given endpoint programs are put in place of units of a base.

ghost use Rattle.std.specs.Prelude.{IfOk, IfErr};
ghost use Rattle.endpoint_code.specs.AboveUnits.{AreUnitsAbove};
ghost use Rattle.endpoint_code.specs.Faults.{IsFaultless};
ghost use Rattle.endpoint_link.specs.Linked.{IsLinked, AllSuit, AsksNoMore};
ghost use Rattle.endpoint_link.specs.InTables.{HasTablesOf};
ghost use Rattle.endpoint_link.specs.Joined.{AreProgramsJoined};
ghost use Rattle.endpoint_link.specs.Judged.{IsLinkFault};

use crate::fault::LinkFault;
use crate::joined::{Joined, join};
use crate::making::copied_channels;
use chor_base::Memory;
use endpoint_code::Endpoints;
use std::alloc::Global;

// The linked programs, with the joined tables.
fn linked_programs(
    alloc: Global,
    base: &Endpoints,
    given: &Endpoints,
    joined: Joined,
) -> Result<Endpoints, Memory>
    requires joined { AreProgramsJoined base.now given.now joined }
    requires suit { AllSuit base.now given.now }
    ensures linked { IfOk result (IsLinked base.now given.now) }
    ensures tables { IfOk result (HasTablesOf joined) }
{
    let channels = copied_channels(alloc, base.channels.as_slice())?;
    let procedures = joined.linked_procedures(
        alloc,
        base.procedures.as_slice(),
        given.procedures.as_slice(),
    )?;
    let services = joined.linked_services(
        alloc,
        base.services.as_slice(),
        given.services.as_slice(),
    )?;
    let processes = joined.linked_processes(
        alloc,
        base.processes.as_slice(),
        given.processes.as_slice(),
    )?;
    Ok(Endpoints {
        names: joined.names,
        texts: joined.texts,
        channels,
        procedures,
        services,
        processes,
        code: joined.code,
    })
}

/// The programs of `base`, with the code of `given` in place of that of each unit which `given` has
/// too. Neither may have a fault of names or of calls.
///
/// Units are known by their names, compared as bytes: a channel and a process by its name, a
/// procedure by its name and its process, a service by its channel and its role. The names and texts
/// of the answer begin with those of `base`.
///
/// # Errors
///
/// `Refused` names the first given unit that can't be put in place of one of `base`, in the order
/// channels, procedures, services, processes: by K2 where `base` has no such unit, else by K1, where
/// its roles or session names differ or its code isn't above.
pub fn link(alloc: Global, base: &Endpoints, given: &Endpoints) -> Result<Endpoints, LinkFault>
    requires base { IsFaultless base.now }
    requires given { IsFaultless given.now }
    ensures linked { IfOk result (IsLinked base.now given.now) }
    ensures faultless { IfOk result IsFaultless }
    ensures above { IfOk result (AreUnitsAbove base.now) }
    ensures asks { IfOk result (AsksNoMore base.now given.now) }
    ensures refused { IfErr result (IsLinkFault base.now given.now) }
{
    // These calls say that no name and no text is twice in its table.
    let _names = given.names.len();
    let _texts = given.texts.len();
    let joined = join(alloc, base, given)?;
    joined.check(alloc, base, given)?;
    let linked = linked_programs(alloc, base, given, joined)?;
    Ok(linked)
}
