//! What a role does in an exchange.

ghost use Rattle.std.specs.Prelude.{◌≡◌, IsTrue, ◌↔◌};
ghost use Rattle.global_types.specs.Moves.{content_of};
ghost use Rattle.std.specs.Ordering.{nat_cmp};
ghost use Rattle.std.specs.Cmp.Lexicographic.{slice_cmp};
ghost use Rattle.state_sets.specs.Moves.{action_of};
ghost use Rattle.state_sets.specs.Table.{act_word};

use chor_base::{NameId, Names};
use chor_tree::Payload;
use std::cmp::Ordering;

/// What a role does, and with which other role: it sends or receives a payload, selects a label, or
/// offers one.
#[derive(Clone, Copy)]
pub enum Act {
    Send(NameId, Payload),
    Recv(NameId, Payload),
    Pick(NameId, NameId),
    Branch(NameId, NameId),
}

/// Whether two payloads are the same, wherever they stand in the file.
pub fn same_payload(one: &Payload, other: &Payload) -> bool
    ensures { IsTrue result ↔ (content_of one.now ≡ content_of other.now) }
{
    match (one, other) {
        (Payload::Plain(sort), Payload::Plain(second)) => sort == second,
        (
            Payload::Endpoint {
                protocol,
                state,
                role,
            },
            Payload::Endpoint {
                protocol: protocol2,
                state: state2,
                role: role2,
            },
        ) => protocol.name == protocol2.name
            && state.name == state2.name
            && role.name == role2.name,
        _ => false,
    }
}

// Whether two acts are the same.
pub fn same_act(one: &Act, other: &Act) -> bool
    ensures { IsTrue result ↔ (action_of one.now ≡ action_of other.now) }
{
    match (one, other) {
        (Act::Send(role, payload), Act::Send(second, load)) => {
            role == second && same_payload(payload, load)
        }
        (Act::Recv(role, payload), Act::Recv(second, load)) => {
            role == second && same_payload(payload, load)
        }
        (Act::Pick(role, label), Act::Pick(second, word)) => role == second && label == word,
        (Act::Branch(role, label), Act::Branch(second, word)) => role == second && label == word,
        _ => false,
    }
}

// The bytes of an act's label. An act without a label has none.
pub fn label_bytes<'a>(names: &'a Names, act: &Act) -> &'a [u8]
    ensures { result.now ≡ act_word names.now act.now }
{
    match act {
        Act::Pick(_, label) | Act::Branch(_, label) if (label.0 as usize) < names.len() => {
            names.at(*label)
        }
        _ => b"".as_slice(),
    }
}

// The order of acts by the bytes of their labels.
pub fn by_label(names: &Names, one: &Act, other: &Act) -> Ordering
    ensures { result ≡ slice_cmp nat_cmp (act_word names.now one.now) (act_word names.now other.now) }
{
    label_bytes(names, one).cmp(label_bytes(names, other))
}
