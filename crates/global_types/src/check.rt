//! The rules that protocols keep, in themselves and where procedures speak of them.

ghost use Rattle.std.specs.Prelude.{◌≡◌, ◌≢◌, [], OnOk, IfErr, Contains};
ghost use Rattle.std.specs.List.{flat_map};
ghost use Rattle.chor_tree.specs.Names.{protocol_named};
ghost use Rattle.global_types.specs.Faults.{unknown_state, unknown_state_in, payload_faults, own_receiver, step_faults, unused_role, protocol_faults, procedure_faults, faults_of};
ghost use Rattle.chor_base.specs.Faults.{first_of_all, IsDenial};
ghost use Rattle.global_types.specs.Moves.{state_named};

use crate::states::{is_used, place_near};
use chor_base::{Denied, Fault, NameId, Rule, earlier, fault_if};
use chor_tree::{File, Named, Payload, Proc, ProtoArm, ProtoStep, Protocol, SessionParam, State};

/// Checks the protocols of a file. A state that isn't there is refused by G1, a receiver that is
/// the sender by G2, and a role that no step names by G3; the first fault of the file decides. It
/// takes no memory.
#[tactic(auto, using(chor_base::proofs::Faults::first_append, chor_base::proofs::Faults::none_is_empty, chor_base::proofs::Faults::first_is_first))]
pub fn check_protocols(file: &File) -> Result<(), Denied>
    ensures ok { OnOk result (faults_of file.now ≡ []) }
    ensures refused { IfErr result (IsDenial (Contains (faults_of file.now))) }
    ensures decided { result ≢ Err Denied.Memory }
{
    let protocols = file.protocols.as_slice();
    let first = earlier(
        first_in_protocols(protocols),
        first_in_procedures(protocols, file.procs.as_slice()),
    );
    match first {
        None => Ok(()),
        Some(fault) => Err(fault.denied()),
    }
}

#[tactic(auto, using(chor_base::proofs::Faults::earlier_none))]
fn first_in_protocols(protocols: &[Protocol]) -> Option<Fault>
    ensures { result ≡ first_of_all (flat_map (protocol_faults protocols.now) protocols.now) }
{
    let mut first = None;
    for protocol in protocols {
        first = earlier(first, first_in_protocol(protocols, protocol));
    }
    first
}

#[tactic(auto, using(chor_base::proofs::Faults::earlier_none))]
fn first_in_procedures(protocols: &[Protocol], procs: &[Proc]) -> Option<Fault>
    ensures { result ≡ first_of_all (flat_map (procedure_faults protocols.now) procs.now) }
{
    let mut first = None;
    for procedure in procs {
        first = earlier(
            first,
            first_in_sessions(protocols, procedure.sessions.as_slice()),
        );
    }
    first
}

#[tactic(auto, using(chor_base::proofs::Faults::first_append))]
fn first_in_protocol(protocols: &[Protocol], protocol: &Protocol) -> Option<Fault>
    ensures { result ≡ first_of_all (protocol_faults protocols.now protocol.now) }
{
    let states = protocol.states.as_slice();
    earlier(
        first_in_roles(states, protocol.roles.as_slice()),
        first_in_states(protocols, states),
    )
}

#[tactic(auto, using(chor_base::proofs::Faults::earlier_none))]
fn first_in_roles(states: &[State], roles: &[Named]) -> Option<Fault>
    ensures { result ≡ first_of_all (flat_map (unused_role states.now) roles.now) }
{
    let mut first = None;
    for role in roles {
        first = earlier(first, unused_role(states, role));
    }
    first
}

#[tactic(auto, using(chor_base::proofs::Faults::earlier_none))]
fn first_in_states(protocols: &[Protocol], states: &[State]) -> Option<Fault>
    ensures { result ≡ first_of_all (flat_map (λ s. step_faults protocols.now states.now s.step) states.now) }
{
    let mut first = None;
    for state in states {
        first = earlier(first, first_in_step(protocols, states, &state.step));
    }
    first
}

#[tactic(auto, using(chor_base::proofs::Faults::first_append))]
fn first_in_step(protocols: &[Protocol], states: &[State], step: &ProtoStep) -> Option<Fault>
    ensures { result ≡ first_of_all (step_faults protocols.now states.now step.now) }
{
    match step {
        ProtoStep::End => None,
        ProtoStep::Value {
            from,
            to,
            payload,
            next,
        } => earlier(
            own_receiver(from, to),
            earlier(
                first_in_payload(protocols, payload),
                unknown_state(states, next),
            ),
        ),
        ProtoStep::Choice { from, to, arms } => earlier(
            own_receiver(from, to),
            first_in_arms(states, arms.as_slice()),
        ),
    }
}

#[tactic(auto, using(chor_base::proofs::Faults::earlier_none))]
fn first_in_arms(states: &[State], arms: &[ProtoArm]) -> Option<Fault>
    ensures { result ≡ first_of_all (flat_map (λ arm. unknown_state states.now arm.next) arms.now) }
{
    let mut first = None;
    let mut near = 0;
    for arm in arms {
        let (fault, after) = unknown_state_near(states, near, &arm.next);
        first = earlier(first, fault);
        near = after;
    }
    first
}

fn first_in_payload(protocols: &[Protocol], payload: &Payload) -> Option<Fault>
    ensures { result ≡ first_of_all (payload_faults protocols.now payload.now) }
{
    match payload {
        Payload::Plain(_) => None,
        Payload::Endpoint {
            protocol,
            state,
            ..
        } => unknown_state_in(protocols, protocol.name, state),
    }
}

#[tactic(auto, using(chor_base::proofs::Faults::earlier_none))]
fn first_in_sessions(protocols: &[Protocol], sessions: &[SessionParam]) -> Option<Fault>
    ensures { result ≡ first_of_all (flat_map (λ k. unknown_state_in (protocol_named protocols.now k.protocol.name) k.state) sessions.now) }
{
    let mut first = None;
    for session in sessions {
        first = earlier(
            first,
            unknown_state_in(protocols, session.protocol.name, &session.state),
        );
    }
    first
}

// A role that no step names.
fn unused_role(states: &[State], role: &Named) -> Option<Fault>
    ensures { result ≡ first_of_all (unused_role states.now role.now) }
{
    fault_if(!is_used(states, role.name), Rule::G3, role.place)
}

// A receiver that is the sender.
fn own_receiver(from: &Named, to: &Named) -> Option<Fault>
    ensures { result ≡ first_of_all (own_receiver from.now to.now) }
{
    fault_if(from.name == to.name, Rule::G2, to.place)
}

// A name that none of the states has; it is looked for here first. Tells the place after the one where
// it stands: the arms of a choice often lead to states that follow one another.
fn unknown_state_near(states: &[State], near: usize, name: &Named) -> (Option<Fault>, usize)
    ensures { result.0 ≡ first_of_all (unknown_state states.now name.now) }
{
    let place = place_near(states, near, name.name);
    let fault = fault_if(place.is_none(), Rule::G1, name.place);
    (fault, place.unwrap_or(0).wrapping_add(1))
}

// A name that none of the states has.
fn unknown_state(states: &[State], name: &Named) -> Option<Fault>
    ensures { result ≡ first_of_all (unknown_state states.now name.now) }
{
    let (fault, _) = unknown_state_near(states, 0, name);
    fault
}

// A name that none of the states of a protocol has, where the protocol is there.
fn unknown_state_in(protocols: &[Protocol], protocol: NameId, state: &Named) -> Option<Fault>
    ensures { result ≡ first_of_all (unknown_state_in (protocol_named protocols.now protocol) state.now) }
{
    for candidate in protocols {
        if candidate.name.name == protocol {
            return unknown_state(candidate.states.as_slice(), state);
        }
    }
    None
}
