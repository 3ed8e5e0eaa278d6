//! The check of the names of a file.

ghost use Rattle.std.specs.Prelude.{◌≡◌, ◌++◌, [], IfOk, OnOk, IfErr};
ghost use Rattle.chor_base.specs.declared.fault.Fault.{Fault};
ghost use Rattle.chor_tree.specs.Names.{IsNameFault, IsBodyFault, declaration_faults, scope_of_main, scope_of_procedure};
ghost use Rattle.chor_host.specs.Functions.{names_of};
ghost use Rattle.chor_host.specs.Tables.{functions_of};
ghost use Rattle.chor_base.specs.Faults.{first_of_all, IsFirst, IsDenial};
ghost use Rattle.name_resolution.specs.InProcedures.{IsFaultInProcedures};

use crate::declared::Declared;
use crate::named::twice_in;
use crate::scope::Bound;
use chor_base::{Denied, Fault, Memory, earlier};
use chor_host::HostTable;
use chor_tree::{File, Proc};
use std::alloc::Global;

/// Checks the names of a file, where programs may call these host functions. The first fault of
/// the file decides.
///
/// A name that isn't declared or isn't in scope is refused by N1, one that is declared or bound
/// twice by N2, and a list that doesn't fit what is declared by N3.
pub fn resolve(alloc: Global, file: &File, hosts: &HostTable) -> Result<(), Denied>
    ensures ok { OnOk result ((x : Fault) → IsNameFault file.now (names_of (functions_of hosts.now)) x → ⊥) }
    ensures refused { IfErr result (IsDenial (IsNameFault file.now (names_of (functions_of hosts.now)))) }
{
    match first_fault(alloc, file, hosts)? {
        None => Ok(()),
        Some(fault) => Err(fault.denied()),
    }
}

fn first_fault(alloc: Global, file: &File, hosts: &HostTable) -> Result<Option<Fault>, Memory>
    ensures { IfOk result (IsFirst (IsNameFault file.now (names_of (functions_of hosts.now)))) }
{
    let declared = Declared::new(alloc, file)?;
    let declarations = declared.first_in_declarations(alloc)?;
    let main = declared.first_in_main(alloc, hosts)?;
    let procedures = declared.first_in_procedure_bodies(alloc, hosts)?;
    let bodies = earlier(main, procedures);
    Ok(earlier(declarations, bodies))
}

impl<'a> Declared<'a> {
    // The first fault outside of bodies.
    #[tactic(auto, using(chor_base::proofs::Faults::first_append, crate::proofs::Members::map_itself))]
    fn first_in_declarations(&self, alloc: Global) -> Result<Option<Fault>, Memory>
        ensures { IfOk result (λ o. o ≡ first_of_all (declaration_faults self.now.file.now)) }
    {
        let file = self.file;
        let protocols = earlier(
            twice_in(alloc, &file.protocols)?,
            self.first_in_protocols(alloc)?,
        );
        let channels = twice_in(alloc, &file.services)?;
        let with_channels = earlier(earlier(protocols, channels), self.first_in_channels());
        let names = twice_in(alloc, &file.procs)?;
        let heads = self.first_in_procedures(alloc)?;
        let processes = twice_in(alloc, &file.processes)?;
        Ok(earlier(earlier(earlier(with_channels, names), heads), processes))
    }

    // The first fault in the body of main.
    fn first_in_main(&self, alloc: Global, hosts: &HostTable) -> Result<Option<Fault>, Memory>
        ensures { let file = self.now.file.now in IfOk result (IsFirst (λ x. IsBodyFault file (names_of (functions_of hosts.now)) x (scope_of_main file) file.body)) }
    {
        let mut bound = Bound::of_main(alloc, &self.file.processes)?;
        self.first_in_body(hosts, &mut bound, self.file.body)
    }

    // The first fault in the bodies of procedures.
    fn first_in_procedure_bodies(
        &self,
        alloc: Global,
        hosts: &HostTable,
    ) -> Result<Option<Fault>, Memory>
        ensures { let file = self.now.file.now in IfOk result (IsFirst (IsFaultInProcedures file (names_of (functions_of hosts.now)) file.procs)) }
    {
        let mut first = None;
        for procedure in self.file.procs.as_slice() {
            let found = self.first_in_procedure_body(alloc, hosts, procedure)?;
            first = earlier(first, found);
        }
        Ok(first)
    }

    fn first_in_procedure_body(
        &self,
        alloc: Global,
        hosts: &HostTable,
        procedure: &Proc,
    ) -> Result<Option<Fault>, Memory>
        ensures { let file = self.now.file.now in IfOk result (IsFirst (λ x. IsBodyFault file (names_of (functions_of hosts.now)) x (scope_of_procedure procedure.now) procedure.now.body)) }
    {
        let mut bound = Bound::of_procedure(alloc, procedure)?;
        self.first_in_body(hosts, &mut bound, procedure.body)
    }
}
