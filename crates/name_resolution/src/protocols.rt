//! The names in protocols.

ghost use Rattle.std.specs.Prelude.{◌≡◌, IfOk, option_copied};
ghost use Rattle.std.specs.List.{flat_map};
ghost use Rattle.chor_tree.specs.Names.{payload_faults, step_faults, protocol_faults, unknown_role};
ghost use Rattle.chor_base.specs.Faults.{first_of_all};

use crate::declared::Declared;
use crate::named::{twice_in, unknown_in};
use chor_base::{Fault, Memory, earlier};
use chor_tree::{Named, Payload, ProtoStep, Protocol};
use std::alloc::Global;

// A role that a protocol hasn't. Roles of a protocol that isn't there have no fault.
pub fn unknown_role(protocol: Option<&Protocol>, role: &Named) -> Option<Fault>
    ensures { result ≡ first_of_all (unknown_role (option_copied protocol.entry) role.now) }
{
    match protocol {
        Some(protocol) => unknown_in(&protocol.roles, role),
        None => None,
    }
}

impl<'a> Declared<'a> {
    pub fn first_in_protocols(&self, alloc: Global) -> Result<Option<Fault>, Memory>
        ensures { let file = self.now.file.now in IfOk result (λ o. o ≡ first_of_all (flat_map (protocol_faults file) file.protocols)) }
    {
        let mut first = None;
        for protocol in self.file.protocols.as_slice() {
            let found = self.first_in_protocol(alloc, protocol)?;
            first = earlier(first, found);
        }
        Ok(first)
    }

    #[tactic(auto, using(chor_base::proofs::Faults::first_append))]
    fn first_in_protocol(&self, alloc: Global, protocol: &Protocol) -> Result<Option<Fault>, Memory>
        ensures { IfOk result (λ o. o ≡ first_of_all (protocol_faults self.now.file.now protocol.now)) }
    {
        let roles = twice_in(alloc, &protocol.roles)?;
        let states = twice_in(alloc, &protocol.states)?;
        let steps = self.first_in_steps(alloc, protocol)?;
        Ok(earlier(earlier(roles, states), steps))
    }

    fn first_in_steps(&self, alloc: Global, protocol: &Protocol) -> Result<Option<Fault>, Memory>
        ensures { IfOk result (λ o. o ≡ first_of_all (flat_map (λ s. step_faults self.now.file.now protocol.now s.step) protocol.now.states)) }
    {
        let mut first = None;
        for state in protocol.states.as_slice() {
            let found = self.first_in_step(alloc, protocol, &state.step)?;
            first = earlier(first, found);
        }
        Ok(first)
    }

    #[tactic(auto, using(chor_base::proofs::Faults::first_append))]
    fn first_in_step(
        &self,
        alloc: Global,
        protocol: &Protocol,
        step: &ProtoStep,
    ) -> Result<Option<Fault>, Memory>
        ensures { IfOk result (λ o. o ≡ first_of_all (step_faults self.now.file.now protocol.now step.now)) }
    {
        let roles = &protocol.roles;
        match step {
            ProtoStep::End => Ok(None),
            ProtoStep::Value {
                from,
                to,
                payload,
                ..
            } => Ok(earlier(
                earlier(unknown_in(roles, from), unknown_in(roles, to)),
                self.first_in_payload(payload),
            )),
            ProtoStep::Choice { from, to, arms } => {
                let labels = twice_in(alloc, arms)?;
                Ok(earlier(
                    earlier(unknown_in(roles, from), unknown_in(roles, to)),
                    labels,
                ))
            }
        }
    }

    #[tactic(auto, using(chor_base::proofs::Faults::first_append))]
    fn first_in_payload(&self, payload: &Payload) -> Option<Fault>
        ensures { result ≡ first_of_all (payload_faults self.now.file.now payload.now) }
    {
        match payload {
            Payload::Plain(_) => None,
            Payload::Endpoint { protocol, role, .. } => earlier(
                self.unknown_protocol(protocol),
                unknown_role(self.protocol(protocol.name), role),
            ),
        }
    }
}
