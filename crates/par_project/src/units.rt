//! Units that are projected side by side, each into a table of its own.

ghost use Rattle.std.specs.Prelude.{All, IfOk};
ghost use Rattle.file_codes.specs.UnitCodes.{MayBeUnitCode, MayBeCleanBody};

use crate::roots::Root;
use chor_base::Memory;
use chor_tree::{File, NodeId};
use file_codes::{UnitCode, clean_body, unit_code};
use rayon::prelude::*;
use std::alloc::Global;
use std::thread::Threads;

/// The codes of these processes, in their order. `None` for a process for which branches clash.
pub fn codes_beside<R: Threads + Sync>(
    rt: &R,
    alloc: Global,
    file: &File,
    roots: &[Root],
) -> Result<Vec<Option<UnitCode>>, Memory>
    ensures { IfOk result (λ owns. All (MayBeUnitCode file.now) owns.items) }
{
    let owns = roots
        .par_iter()
        .with_min_len(1)
        .map(
            |root: &Root| -> Option<UnitCode>
                ensures { MayBeUnitCode file.entry.now result }
            { unit_code(alloc, file, root.at, root.process) },
        )
        .collect::<Vec<_>>(rt, alloc)?;
    Ok(owns)
}

/// The bodies, in their order. `None` for a body in which branches clash for a process that one of its
/// starts makes.
pub fn clean_beside<R: Threads + Sync>(
    rt: &R,
    alloc: Global,
    file: &File,
    bodies: &[NodeId],
) -> Result<Vec<Option<NodeId>>, Memory>
    ensures { IfOk result (λ clean. All (MayBeCleanBody file.now) clean.items) }
{
    let clean = bodies
        .par_iter()
        .with_min_len(1)
        .map(
            |at: &NodeId| -> Option<NodeId>
                ensures { MayBeCleanBody file.entry.now result }
            { clean_body(alloc, file, *at) },
        )
        .collect::<Vec<_>>(rt, alloc)?;
    Ok(clean)
}
