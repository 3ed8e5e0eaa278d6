//! The names in the heads of procedures.

ghost use Rattle.std.specs.Prelude.{◌≡◌, ◌++◌, [], map, IfOk, option_copied};
ghost use Rattle.std.specs.List.{flat_map};
ghost use Rattle.chor_tree.specs.Names.{unknown, unknown_role, repeated, protocol_of, session_faults, procedure_faults};
ghost use Rattle.chor_base.specs.Faults.{first_of_all};

use crate::declared::Declared;
use crate::named::{repeated, twice_in, unknown_in};
use crate::protocols::unknown_role;
use crate::set::NameSet;
use chor_base::{Fault, List, Memory, earlier};
use chor_tree::{Named, Proc, ProcParam, Protocol, SessionParam};
use std::alloc::Global;

impl<'a> Declared<'a> {
    pub fn first_in_procedures(&self, alloc: Global) -> Result<Option<Fault>, Memory>
        ensures { let file = self.now.file.now in IfOk result (λ o. o ≡ first_of_all (flat_map (procedure_faults file) file.procs)) }
    {
        let mut first = None;
        for procedure in self.file.procs.as_slice() {
            let found = self.first_in_procedure(alloc, procedure)?;
            first = earlier(first, found);
        }
        Ok(first)
    }

    #[tactic(auto, using(chor_base::proofs::Faults::first_append))]
    fn first_in_procedure(&self, alloc: Global, procedure: &Proc) -> Result<Option<Fault>, Memory>
        ensures { IfOk result (λ o. o ≡ first_of_all (procedure_faults self.now.file.now procedure.now)) }
    {
        let names = repeated_parameters(alloc, procedure)?;
        let variables = first_in_variables(alloc, &procedure.params)?;
        let sessions = self.first_in_sessions(alloc, procedure)?;
        Ok(earlier(earlier(names, variables), sessions))
    }

    fn first_in_sessions(&self, alloc: Global, procedure: &Proc) -> Result<Option<Fault>, Memory>
        ensures { IfOk result (λ o. o ≡ first_of_all (flat_map (session_faults self.now.file.now (map (λ q. q.name.name) procedure.now.params)) procedure.now.sessions)) }
    {
        let params = &procedure.params;
        let mut first = None;
        for session in procedure.sessions.as_slice() {
            let found = self.first_in_session(alloc, params, session)?;
            first = earlier(first, found);
        }
        Ok(first)
    }

    #[tactic(auto, using(chor_base::proofs::Faults::first_append))]
    fn first_in_session(
        &self,
        alloc: Global,
        params: &List<ProcParam>,
        session: &SessionParam,
    ) -> Result<Option<Fault>, Memory>
        ensures { IfOk result (λ o. o ≡ first_of_all (session_faults self.now.file.now (map (λ q. q.name.name) params.now) session.now)) }
    {
        let protocol = self.protocol(session.protocol.name);
        let names = earlier(
            self.named_as_channel(&session.name),
            self.unknown_protocol(&session.protocol),
        );
        let unknown = first_in_holders(protocol, params, &session.holders);
        let roles = twice_in(alloc, &session.holders)?;
        Ok(earlier(earlier(names, unknown), roles))
    }
}

// The process parameters and the session parameters have one name space.
#[tactic(auto, using(chor_base::proofs::Faults::first_append))]
fn repeated_parameters(alloc: Global, procedure: &Proc) -> Result<Option<Fault>, Memory>
    ensures { IfOk result (λ o. o ≡ first_of_all (repeated [] (map (λ q. q.name) procedure.now.params ++ map (λ k. k.name) procedure.now.sessions))) }
{
    let mut known = NameSet::new(alloc);
    let processes = repeated(&mut known, &procedure.params)?;
    let sessions = repeated(&mut known, &procedure.sessions)?;
    Ok(earlier(processes, sessions))
}

fn first_in_variables(alloc: Global, params: &List<ProcParam>) -> Result<Option<Fault>, Memory>
    ensures { IfOk result (λ o. o ≡ first_of_all (flat_map (λ q. repeated [] (map (λ v. v.0) q.vars)) params.now)) }
{
    let mut first = None;
    for param in params.as_slice() {
        let found = twice_in(alloc, &param.vars)?;
        first = earlier(first, found);
    }
    Ok(first)
}

fn first_in_holders(
    protocol: Option<&Protocol>,
    params: &List<ProcParam>,
    holders: &List<(Named, Named)>,
) -> Option<Fault>
    ensures { result ≡ first_of_all (flat_map (λ h. unknown_role (option_copied protocol.entry) h.0 ++ unknown (map (λ q. q.name.name) params.now) h.1) holders.now) }
{
    let mut first = None;
    for holder in holders.as_slice() {
        first = earlier(first, first_in_holder(protocol, params, holder));
    }
    first
}

// A role and its holder.
#[tactic(auto, using(chor_base::proofs::Faults::first_append))]
fn first_in_holder(
    protocol: Option<&Protocol>,
    params: &List<ProcParam>,
    holder: &(Named, Named),
) -> Option<Fault>
    ensures { result ≡ first_of_all (unknown_role (option_copied protocol.entry) holder.now.0 ++ unknown (map (λ q. q.name.name) params.now) holder.now.1) }
{
    earlier(
        unknown_role(protocol, &holder.0),
        unknown_in(params, &holder.1),
    )
}
