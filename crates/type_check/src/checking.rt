//! The check of the types of a file.

ghost use Rattle.std.specs.Prelude.{◌≡◌, [], IfOk, OnOk, IfErr, Contains};
ghost use Rattle.chor_base.specs.Faults.{IsFirst, IsDenial};
ghost use Rattle.chor_host.specs.Functions.{names_of};
ghost use Rattle.chor_host.specs.Tables.{functions_of};
ghost use Rattle.global_types.specs.Faults.{faults_of};
ghost use Rattle.typing_rules.specs.TypeFaults.{IsTypeFault, IsTyped};
ghost use Rattle.type_check.specs.InProcedures.{IsProcedureFault, IsFaultInSome};
ghost use Rattle.type_check.specs.Resolved.{HasNamesResolved};
ghost use Rattle.type_check.specs.Typed.{HasFineNames, HasFineViews};

use crate::bodies::first_in_body;
use crate::heads::first_in_head;
use crate::typed::Typed;
use chor_base::{Denied, Fault, Memory, earlier};
use chor_host::HostTable;
use chor_tree::{File, Proc};
use known_functions::host_names;
use std::alloc::Global;
use typing_steps::Known;

/// The file, typed, where programs may call these host functions, of whose names, protocols and
/// views it has no fault. The first fault of its types decides; on any refusal the file is dropped.
///
/// T1 to T5 refuse a message that its protocol, the holders of its roles or the sort of its value
/// don't allow, T6 a session that isn't brought to its end, T7 a call that doesn't fit what it calls,
/// T8 a variable that isn't set, and T9 a process with two roles of a session.
pub fn check_types(alloc: Global, file: File, hosts: &HostTable) -> Result<Typed, Denied>
    requires names { HasFineNames (names_of (functions_of hosts.now)) file }
    requires protocols { faults_of file ≡ [] }
    requires views { HasFineViews file }
    ensures file { IfOk result (λ typed. typed.file ≡ file) }
    ensures hosts { IfOk result (λ typed. typed.hosts ≡ names_of (functions_of hosts.now)) }
    ensures typed { OnOk result (IsTyped file) }
    ensures refused { IfErr result (IsDenial (IsTypeFault file)) }
{
    match first_type_fault(alloc, &file)? {
        Some(fault) => Err(fault.denied()),
        None => {
            let names = host_names(alloc, hosts)?;
            Ok(Typed::new(file, names))
        }
    }
}

/// The first fault of the types of a file: a rule of T1 to T9 that a statement, a tail or the head
/// of a procedure violates. What follows a fault on its path isn't judged, nor is the body of a
/// procedure whose head has one.
pub fn first_type_fault(alloc: Global, file: &File) -> Result<Option<Fault>, Memory>
    requires { HasNamesResolved file.now }
    ensures { IfOk result (IsFirst (IsTypeFault file.now)) }
{
    let main = first_in_body(alloc, file, Known::at_main(alloc), file.body)?;
    let procedures = first_in_procedures(alloc, file)?;
    Ok(earlier(main, procedures))
}

// The first fault of the procedures.
fn first_in_procedures(alloc: Global, file: &File) -> Result<Option<Fault>, Memory>
    requires { HasNamesResolved file.now }
    ensures { IfOk result (IsFirst (IsFaultInSome (IsProcedureFault file.now) file.now.procs)) }
{
    let mut first = None;
    for procedure in file.procs.as_slice() {
        let found = first_in_procedure(alloc, file, procedure)?;
        first = earlier(first, found);
    }
    Ok(first)
}

// The first fault of a procedure. Where its head has one its body isn't judged.
fn first_in_procedure(alloc: Global, file: &File, procedure: &Proc) -> Result<Option<Fault>, Memory>
    requires names { HasNamesResolved file.now }
    requires declared { Contains file.now.procs procedure.now }
    ensures { IfOk result (IsFirst (IsProcedureFault file.now procedure.now)) }
{
    let head = first_in_head(alloc, procedure)?;
    if head.is_some() {
        return Ok(head);
    }
    let known = Known::at_procedure(alloc, procedure)?;
    let body = first_in_body(alloc, file, known, procedure.body)?;
    Ok(body)
}
