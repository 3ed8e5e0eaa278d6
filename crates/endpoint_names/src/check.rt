//! The check of what an endpoint file names.

ghost use Rattle.std.specs.Prelude.{◌≡◌, [], Contains, IfOk, IfErr, OnOk};
ghost use Rattle.chor_base.specs.Faults.{first_of_all, IsDenial};
ghost use Rattle.chor_host.specs.Functions.{names_of};
ghost use Rattle.chor_host.specs.Tables.{functions_of};
ghost use Rattle.endpoint_names.specs.Faults.{setting, name_faults};

use crate::declared::Declared;
use crate::functions::Functions;
use chor_base::{Denied, Fault, Memory, Names};
use chor_host::HostTable;
use endpoint_reader::Written;
use std::alloc::Global;

/// Checks what an endpoint file names, where programs may call these host functions. The first fault
/// decides.
///
/// What isn't declared or isn't bound, what is declared or bound twice, and a call that doesn't fit
/// its procedure are refused by E2.
#[tactic(auto, using(chor_base::proofs::Faults::none_is_empty, crate::proofs::Classes::denied_for))]
pub fn check_names(
    alloc: Global,
    written: &Written,
    names: &Names,
    hosts: &HostTable,
) -> Result<(), Denied>
    ensures ok { OnOk result (name_faults (setting written.now names.now (names_of (functions_of hosts.now))) ≡ []) }
    ensures refused { IfErr result (IsDenial (Contains (name_faults (setting written.now names.now (names_of (functions_of hosts.now)))))) }
{
    match first_of_names(alloc, written, names, hosts)? {
        None => Ok(()),
        Some(fault) => Err(fault.denied()),
    }
}

// The first fault of names.
fn first_of_names(
    alloc: Global,
    written: &Written,
    names: &Names,
    hosts: &HostTable,
) -> Result<Option<Fault>, Memory>
    ensures { IfOk result (λ o. o ≡ first_of_all (name_faults (setting written.now names.now (names_of (functions_of hosts.now))))) }
{
    let functions = Functions::new(alloc, names, hosts)?;
    let declared = Declared::new(alloc, written, functions)?;
    let first = declared.first_in_file()?;
    Ok(first)
}
