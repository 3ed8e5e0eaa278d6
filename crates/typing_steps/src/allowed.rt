//! What a step of a protocol allows one role to send to another, and the state after it.

ghost use Rattle.std.specs.Prelude.{◌≡◌, option_copied, Some};
ghost use Rattle.typing_rules.specs.Allowed.{is_between, value_sent, labels_sent, arm_of, arm_in, endpoint_sent, is_last};

use chor_base::{List, NameId, Sort};
use chor_tree::{Named, Payload, ProtoArm, ProtoStep};
use std::marker::Model;

/// The type of an endpoint: its protocol, its state and its role.
#[derive(Clone, Copy)]
pub struct EndpointType {
    pub protocol: NameId,
    pub state: NameId,
    pub role: NameId,
}

impl Model for EndpointType {
    ghost use Rattle.typing_rules.specs.declared.allowed.EndpointType.{EndpointType as Endpoint};

    ghost Value = { Endpoint };

    ghost view = { λ t. record { protocol = t.protocol; state = t.state; role = t.role } };

    ghost inverse = { λ t. record { protocol = t.protocol; state = t.state; role = t.role } };
}

// Whether an exchange is from one role to the other.
fn is_between(from: NameId, to: NameId, sender: &Named, receiver: &Named) -> bool
    ensures { result ≡ is_between from to sender.now receiver.now }
{
    sender.name == from && receiver.name == to
}

// The sort of the value that is sent.
pub fn value_sent(from: NameId, to: NameId, step: Option<&ProtoStep>) -> Option<(Sort, NameId)>
    ensures { result ≡ value_sent from to (option_copied step.entry) }
{
    match step {
        Some(step) => value_in(from, to, step),
        None => None,
    }
}

fn value_in(from: NameId, to: NameId, step: &ProtoStep) -> Option<(Sort, NameId)>
    ensures { result ≡ value_sent from to (Some step.now) }
{
    match step {
        ProtoStep::Value {
            from: sender,
            to: receiver,
            payload: Payload::Plain(sort),
            next,
        } => {
            if is_between(from, to, sender, receiver) {
                Some((*sort, next.name))
            } else {
                None
            }
        }
        _ => None,
    }
}

// The labels of which one is selected.
pub fn labels_sent(from: NameId, to: NameId, step: Option<&ProtoStep>) -> Option<&List<ProtoArm>>
    ensures { option_copied result ≡ labels_sent from to (option_copied step.entry) }
{
    match step {
        Some(step) => labels_in(from, to, step),
        None => None,
    }
}

fn labels_in(from: NameId, to: NameId, step: &ProtoStep) -> Option<&List<ProtoArm>>
    ensures { option_copied result ≡ labels_sent from to (Some step.now) }
{
    match step {
        ProtoStep::Choice {
            from: sender,
            to: receiver,
            arms,
        } => {
            if is_between(from, to, sender, receiver) {
                Some(arms)
            } else {
                None
            }
        }
        _ => None,
    }
}

// The state after a label.
pub fn arm_of(arms: &[ProtoArm], label: NameId) -> Option<NameId>
    ensures { result ≡ arm_of arms.now label }
{
    for arm in arms {
        if arm.label.name == label {
            return Some(arm.next.name);
        }
    }
    None
}

// The type of the endpoint that is handed over.
pub fn endpoint_sent(
    from: NameId,
    to: NameId,
    step: Option<&ProtoStep>,
) -> Option<(EndpointType, NameId)>
    ensures { result ≡ endpoint_sent from to (option_copied step.entry) }
{
    match step {
        Some(step) => endpoint_in(from, to, step),
        None => None,
    }
}

fn endpoint_in(from: NameId, to: NameId, step: &ProtoStep) -> Option<(EndpointType, NameId)>
    ensures { result ≡ endpoint_sent from to (Some step.now) }
{
    match step {
        ProtoStep::Value {
            from: sender,
            to: receiver,
            payload: Payload::Endpoint {
                protocol,
                state,
                role,
            },
            next,
        } => {
            if is_between(from, to, sender, receiver) {
                let kind = EndpointType {
                    protocol: protocol.name,
                    state: state.name,
                    role: role.name,
                };
                Some((kind, next.name))
            } else {
                None
            }
        }
        _ => None,
    }
}

// Whether the step is `end`.
pub fn is_last(step: Option<&ProtoStep>) -> bool
    ensures { result ≡ is_last (option_copied step.entry) }
{
    match step {
        Some(ProtoStep::End) => true,
        _ => false,
    }
}
