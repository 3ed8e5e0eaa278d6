//! The check of guarded procedures.

ghost use Rattle.std.specs.Prelude.{◌≡◌, map, IfOk, OnOk, IfErr};
ghost use Rattle.chor_base.specs.Faults.{IsFirst, IsDenial};
ghost use Rattle.chor_tree.specs.Source.{body_of};
ghost use Rattle.typing_rules.specs.Guarded.{IsGuardFault, IsGuarded};
ghost use Rattle.guard_check.specs.InBodies.{IsUnguardedIn};

use crate::bodies::first_in_body;
use crate::unnamed::names_of_params;
use chor_base::{Denied, Fault, Memory, earlier};
use chor_tree::{File, Proc};
use std::alloc::Global;

/// Checks that each procedure of a file names a process that it was passed before it passes it on.
/// Otherwise calls could go on without end while that process does nothing.
///
/// The first call that passes a parameter which nothing before it on its path names is refused by
/// U1.
pub fn check_guarded(alloc: Global, file: &File) -> Result<(), Denied>
    ensures ok { OnOk result (IsGuarded file.now) }
    ensures refused { IfErr result (IsDenial (IsGuardFault file.now)) }
{
    match first_unguarded(alloc, file)? {
        None => Ok(()),
        Some(fault) => Err(fault.denied()),
    }
}

/// The first call of a file that passes a parameter which nothing before it on its path names.
pub fn first_unguarded(alloc: Global, file: &File) -> Result<Option<Fault>, Memory>
    ensures { IfOk result (IsFirst (IsGuardFault file.now)) }
{
    let mut first = None;
    for procedure in file.procs.as_slice() {
        let found = first_in_procedure(alloc, file, procedure)?;
        first = earlier(first, found);
    }
    Ok(first)
}

fn first_in_procedure(alloc: Global, file: &File, procedure: &Proc) -> Result<Option<Fault>, Memory>
    ensures { IfOk result (IsFirst (IsUnguardedIn (map (λ q. q.name.name) procedure.now.params) (body_of file.now procedure.now.body))) }
{
    let params = names_of_params(alloc, procedure.params.as_slice())?;
    let first = first_in_body(alloc, file, params, procedure.body)?;
    Ok(first)
}
