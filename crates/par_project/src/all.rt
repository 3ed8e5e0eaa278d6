//! Projection by several threads.

ghost use Rattle.std.specs.Prelude.{◌≡◌, All, IfOk, IfErr, OnOk};
ghost use Rattle.projection.specs.Projects.{Projects};
ghost use Rattle.projection.specs.MergeFaults.{sites_of, services_of, HasClash, HasServiceClash, IsMergeDenial};
ghost use Rattle.service_codes.specs.Starts.{HasNamesResolved};
ghost use Rattle.par_project.specs.UnitCodes.{AreUnitCodes};

use crate::roots::{bodies, params, processes};
use crate::size::is_large;
use crate::units::{clean_beside, codes_beside};
use chor_base::{Denied, Memory};
use chor_tree::{File, NodeId};
use endpoint_code::Endpoints;
use file_codes::{Prepared, UnitCode, project, project_from};
use rayon::current_num_threads;
use std::alloc::Global;
use std::thread::Threads;

/// The endpoint programs of a file whose names have no fault. It answers as `file_codes::project`
/// does, refusals included. On more than one processor the units of a large file are projected side
/// by side.
pub fn project_all<R: Threads + Sync>(
    rt: &R,
    alloc: Global,
    file: &File,
) -> Result<Endpoints, Denied>
    requires { HasNamesResolved file.now }
    ensures projects { IfOk result (Projects file.now) }
    ensures clean { OnOk result (All (λ s. HasClash file.now s → ⊥) (sites_of file.now)) }
    ensures served { OnOk result (All (λ x. HasServiceClash file.now x → ⊥) (services_of file.now)) }
    ensures denied { IfErr result (IsMergeDenial file.now) }
{
    if is_large(file) && current_num_threads(rt) > 1 {
        project_beside(rt, alloc, file)
    } else {
        project(alloc, file)
    }
}

/// The same for a file of any size, always side by side: each parameter of a procedure and each
/// process of main is projected into a code table of its own. Then the tables are joined, and the
/// first fault is found, in source order.
pub fn project_beside<R: Threads + Sync>(
    rt: &R,
    alloc: Global,
    file: &File,
) -> Result<Endpoints, Denied>
    requires { HasNamesResolved file.now }
    ensures projects { IfOk result (Projects file.now) }
    ensures clean { OnOk result (All (λ s. HasClash file.now s → ⊥) (sites_of file.now)) }
    ensures served { OnOk result (All (λ x. HasServiceClash file.now x → ⊥) (services_of file.now)) }
    ensures denied { IfErr result (IsMergeDenial file.now) }
{
    match unit_codes(rt, alloc, file) {
        Ok(units) => {
            let prepared = Prepared {
                params: units.params.as_slice(),
                processes: units.processes.as_slice(),
                clean: units.clean.as_slice(),
            };
            project_from(alloc, file, &prepared)
        }
        Err(_) => Err(Denied::Memory),
    }
}

/// Codes of a file that were made side by side, each in a table of its own.
#[derive(Drop)]
pub struct UnitCodes {
    pub params: Vec<Option<UnitCode>>,
    pub processes: Vec<Option<UnitCode>>,
    pub clean: Vec<Option<NodeId>>,
}

// The codes of all parameters and processes, and the bodies whose starts make only processes without
// a clash.
fn unit_codes<R: Threads + Sync>(rt: &R, alloc: Global, file: &File) -> Result<UnitCodes, Memory>
    ensures { IfOk result (AreUnitCodes file.now) }
{
    let params = params(alloc, file)?;
    let processes = processes(alloc, file)?;
    let bodies = bodies(alloc, file)?;
    Ok(UnitCodes {
        params: codes_beside(rt, alloc, file, params.as_slice())?,
        processes: codes_beside(rt, alloc, file, processes.as_slice())?,
        clean: clean_beside(rt, alloc, file, bodies.as_slice())?,
    })
}
