//! Protocols: named states, the first of which is initial.

use crate::file::Named;
use chor_base::{List, Sort};
use std::marker::Model;

/// A protocol with its roles and its states. The first state is the initial one. It has a role and a
/// state, and each choice of it has a label.
pub struct Protocol {
    pub name: Named,
    pub roles: List<Named>,
    pub states: List<State>,
}

impl Drop for Protocol {
    fn drop(self) {
        let Protocol {
            name: _,
            roles: _,
            states: _,
        } = self;
    }
}

impl Model for Protocol {
    ghost use Rattle.std.specs.Prelude.{◌≡◌, true};
    ghost use Rattle.chor_tree.specs.Protocols.{Protocol as ProtocolIs, are_filled};

    ghost Value = { ProtocolIs };

    ghost view = { λ p. record { name = p.name; roles = p.roles; states = p.states } };

    ghost invariant = { λ p. are_filled p.roles p.states ≡ true };
}

/// A state and the step that is taken in it.
#[derive(Drop)]
pub struct State {
    pub name: Named,
    pub step: ProtoStep,
}

/// What happens in a state.
#[derive(Drop)]
pub enum ProtoStep {
    /// Nothing more.
    End,
    /// One role sends a payload to another.
    Value {
        from: Named,
        to: Named,
        payload: Payload,
        next: Named,
    },
    /// One role selects a label, and another learns which.
    Choice {
        from: Named,
        to: Named,
        arms: List<ProtoArm>,
    },
}

/// A label and the state after it.
#[derive(Clone, Copy)]
pub struct ProtoArm {
    pub label: Named,
    pub next: Named,
}

/// What is sent in a step.
#[derive(Clone, Copy)]
pub enum Payload {
    /// A value of a sort.
    Plain(Sort),
    /// An endpoint: a role of a protocol in a state, written `Protocol.State@Role`.
    Endpoint {
        protocol: Named,
        state: Named,
        role: Named,
    },
}
