//! Protocols, services and parameters.

ghost use Rattle.std.specs.Prelude.{◌≡◌};
ghost use Rattle.chor_tree.specs.Both.{words_of};
ghost use Rattle.chor_tree.specs.Same.{same_sort, same_payload, same_arm, same_step, same_state, same_protocol, same_service, same_header, same_process_param, same_session_param};

use crate::comparison::both::Say;
use crate::file::{File, ProcParam, Service, SessionParam};
use crate::header::Header;
use crate::protocol::{Payload, ProtoArm, ProtoStep, Protocol, State};
use chor_base::Sort;

impl Say for Header {
    ghost same = { λ f g. same_header };

    fn says(&self, other: &Self, left: &File, right: &File) -> bool {
        let capacity = match (self.capacity, other.capacity) {
            (Some(a), Some(b)) => a == b,
            (None, None) => true,
            _ => false,
        };
        (self.version == other.version) & capacity
    }
}

impl Say for Sort {
    ghost same = { λ f g. same_sort };

    fn says(&self, other: &Self, left: &File, right: &File) -> bool {
        match (self, other) {
            (Sort::Int, Sort::Int) | (Sort::Bool, Sort::Bool) | (Sort::Text, Sort::Text) => true,
            _ => false,
        }
    }
}

impl Say for Payload {
    ghost same = { λ f g. same_payload (words_of f g) };

    fn says(&self, other: &Self, left: &File, right: &File) -> bool {
        match (self, other) {
            (Payload::Plain(a), Payload::Plain(b)) => a.says(b, left, right),
            (
                Payload::Endpoint {
                    protocol: p,
                    state: s,
                    role: r,
                },
                Payload::Endpoint {
                    protocol: q,
                    state: t,
                    role: u,
                },
            ) => p.says(q, left, right) & s.says(t, left, right) & r.says(u, left, right),
            _ => false,
        }
    }
}

impl Say for ProtoArm {
    ghost same = { λ f g. same_arm (words_of f g) };

    fn says(&self, other: &Self, left: &File, right: &File) -> bool {
        self.label.says(&other.label, left, right) & self.next.says(&other.next, left, right)
    }
}

impl Say for ProtoStep {
    ghost same = { λ f g. same_step (words_of f g) };

    fn says(&self, other: &Self, left: &File, right: &File) -> bool {
        match (self, other) {
            (ProtoStep::End, ProtoStep::End) => true,
            (
                ProtoStep::Value {
                    from: a,
                    to: b,
                    payload: p,
                    next: m,
                },
                ProtoStep::Value {
                    from: c,
                    to: d,
                    payload: q,
                    next: n,
                },
            ) => a.says(c, left, right)
                & b.says(d, left, right)
                & p.says(q, left, right)
                & m.says(n, left, right),
            (
                ProtoStep::Choice {
                    from: a,
                    to: b,
                    arms,
                },
                ProtoStep::Choice {
                    from: c,
                    to: d,
                    arms: others,
                },
            ) => a.says(c, left, right) & b.says(d, left, right) & arms.says(others, left, right),
            _ => false,
        }
    }
}

impl Say for State {
    ghost same = { λ f g. same_state (words_of f g) };

    fn says(&self, other: &Self, left: &File, right: &File) -> bool {
        self.name.says(&other.name, left, right) & self.step.says(&other.step, left, right)
    }
}

impl Say for Protocol {
    ghost same = { λ f g. same_protocol (words_of f g) };

    fn says(&self, other: &Self, left: &File, right: &File) -> bool {
        self.name.says(&other.name, left, right)
            & self.roles.says(&other.roles, left, right)
            & self.states.says(&other.states, left, right)
    }
}

impl Say for Service {
    ghost same = { λ f g. same_service (words_of f g) };

    fn says(&self, other: &Self, left: &File, right: &File) -> bool {
        self.name.says(&other.name, left, right)
            & self.protocol.says(&other.protocol, left, right)
            & self.active.says(&other.active, left, right)
            & self.serve.says(&other.serve, left, right)
    }
}

impl Say for ProcParam {
    ghost same = { λ f g. same_process_param (words_of f g) };

    fn says(&self, other: &Self, left: &File, right: &File) -> bool {
        self.name.says(&other.name, left, right) & self.vars.says(&other.vars, left, right)
    }
}

impl Say for SessionParam {
    ghost same = { λ f g. same_session_param (words_of f g) };

    fn says(&self, other: &Self, left: &File, right: &File) -> bool {
        self.name.says(&other.name, left, right)
            & self.protocol.says(&other.protocol, left, right)
            & self.state.says(&other.state, left, right)
            & self.holders.says(&other.holders, left, right)
    }
}
