//! Whole endpoint programs.

ghost use Rattle.std.specs.Prelude.{IfOk};
ghost use Rattle.endpoint_making.specs.Making.{AreNumbered, IsMadeOf};

use crate::table::table_of;
use crate::units::{channels_of, procedures_of, processes_of, services_of};
use chor_base::{Memory, Names, Texts};
use endpoint_code::Endpoints;
use endpoint_reader::Written;
use std::alloc::Global;

/// The endpoint programs that are written, with these tables of names and texts.
pub fn endpoints_of(
    alloc: Global,
    written: &Written,
    names: Names,
    texts: Texts,
) -> Result<Endpoints, Memory>
    requires { AreNumbered names texts written.now }
    ensures { IfOk result (IsMadeOf written.now names texts) }
{
    let code = table_of(alloc, &written.lines, &names, &texts)?;
    let channels = channels_of(alloc, written.channels.as_slice())?;
    let procedures = procedures_of(alloc, written.procedures.as_slice())?;
    let services = services_of(alloc, written.services.as_slice())?;
    let processes = processes_of(alloc, written.processes.as_slice())?;
    Ok(Endpoints {
        names,
        texts,
        channels,
        procedures,
        services,
        processes,
        code,
    })
}
