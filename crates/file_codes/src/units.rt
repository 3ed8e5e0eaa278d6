//! The units of a file: procedures and processes with their codes.

ghost use Rattle.std.specs.Prelude.{◌≡◌, IfOk, IfErr, map};
ghost use Rattle.projection.specs.MergeFaults.{sites_of};
ghost use Rattle.block_codes.specs.Walks.{StopsAt};
ghost use Rattle.file_codes.specs.Prepared.{ArePrepared};
ghost use Rattle.file_codes.specs.Units.{process_from, AreUnits};

use crate::channels::names_of;
use crate::prepared::{Prepared, clean_at, codes_from};
use crate::procedures::procedures;
use block_codes::{Coded, Stop};
use chor_base::{List, Memory};
use chor_tree::File;
use endpoint_code::{Code, Procedure, Process};
use std::alloc::Global;

/// The procedures and the processes of a file with their codes.
#[derive(Drop)]
pub struct Units {
    pub procedures: List<Procedure>,
    pub processes: List<Process>,
    pub code: Code,
}

/// The units of a file, in source order, with prepared codes where these fit. `Clash` comes at the
/// first branches that clash.
pub fn units_of(alloc: Global, file: &File, prepared: &Prepared<'_>) -> Result<Units, Stop>
    requires { ArePrepared file.now prepared.now }
    ensures units { IfOk result (AreUnits file.now) }
    ensures stopped { IfErr result (StopsAt file.now (sites_of file.now)) }
{
    let mut code = Code::new(alloc);
    let procedures = procedures(alloc, file, prepared, &mut code)?;
    let scope = names_of(alloc, file.processes.as_slice())?;
    let made = (
        prepared.processes,
        0,
        clean_at(prepared.clean, file.procs.len(), file),
    );
    let list = codes_from(alloc, file, file.body, scope.as_slice(), made, &mut code)?;
    Ok(Units {
        procedures,
        processes: processes_of(alloc, list.as_slice())?,
        code,
    })
}

fn processes_of(alloc: Global, list: &[Coded]) -> Result<List<Process>, Memory>
    ensures { IfOk result (λ processes. processes ≡ map process_from list.now) }
{
    let mut processes = List::new(alloc);
    for coded in list {
        processes.push(Process {
            name: coded.process,
            body: coded.code,
        })?;
    }
    Ok(processes)
}
