//! States by their names, and the roles that steps name.

ghost use Rattle.std.specs.Prelude.{◌≡◌, ◌≤◌, ◌^◌, length, is_some};
ghost use Rattle.std.specs.List.{list_any};
ghost use Rattle.global_types.specs.Moves.{state_named, is_named};

use chor_base::NameId;
use chor_tree::{ProtoStep, Protocol, State};

/// The place of the first state of a name in its protocol, counted from 0.
#[tactic(auto, using(chor_base::proofs::FirstPlaces::later_one, chor_base::proofs::FirstPlaces::later_none))]
pub fn step_at(protocol: &Protocol, state: NameId) -> Option<u32>
    ensures { result ≡ state_named protocol.now.states state }
{
    let count = protocol.states.count();
    let states = protocol.states.as_slice();
    for index in 0..count {
        if states[index as usize].name.name == state {
            return Some(index);
        }
    }
    None
}

// Where the first state of this name stands.
fn first_place(states: &[State], name: NameId) -> Option<usize>
    ensures { is_some result ≡ is_some (state_named states.now name) }
{
    for place in 0..states.len() {
        if states[place].name.name == name {
            return Some(place);
        }
    }
    None
}

// Where a state of this name stands: here, or else the first.
pub fn place_near(states: &[State], near: usize, name: NameId) -> Option<usize>
    ensures { is_some result ≡ is_some (state_named states.now name) }
{
    match states.get(near) {
        Some(state) if state.name.name == name => Some(near),
        _ => first_place(states, name),
    }
}

/// Whether a step names a role as its sender or its receiver.
pub fn is_named(role: NameId, step: &ProtoStep) -> bool
    ensures { result ≡ is_named role step.now }
{
    match step {
        ProtoStep::End => false,
        ProtoStep::Value { from, to, .. } | ProtoStep::Choice { from, to, .. } => {
            from.name == role || to.name == role
        }
    }
}

// Whether a step of these states names the role.
pub fn is_used(states: &[State], role: NameId) -> bool
    ensures { result ≡ list_any (λ s. is_named role s.step) states.now }
{
    for state in states {
        if is_named(role, &state.step) {
            return true;
        }
    }
    false
}
