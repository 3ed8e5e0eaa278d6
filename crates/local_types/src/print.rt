//! The text of local types.

ghost use Rattle.std.specs.Prelude.{◌≡◌, ◌++◌, OnOk, OnErr, codes};
ghost use Rattle.std.specs.Fmt.{decimal};
ghost use Rattle.chor_base.specs.Writing.{name_in};
ghost use Rattle.local_types.specs.Text.{line_end, sort_text, payload_text, message_text, labels_text, choice_text, state_text, states_text, local_text};

use crate::local_type::{LocalState, LocalType};
use chor_base::{Memory, NameId, Names, Sort, put_bytes, put_name, put_number};
use chor_tree::{Payload, Protocol};
use std::alloc::Global;

/// Appends the text of a role's type: a line `local P@A`, and one for each state. A name that isn't
/// in the table adds no bytes.
pub fn print_local(
    alloc: Global,
    protocol: &Protocol,
    role: NameId,
    local: &LocalType,
    names: &Names,
    out: &mut Vec<u8>,
) -> Result<(), Memory>
    ensures ok { OnOk result (out.new.items ≡ out.old.items ++ local_text names.now protocol.now.name.name role local.now.states) }
    ensures err { OnErr result (out.new.items ≡ out.old.items) }
{
    let mut text = Vec::new(alloc);
    put_head(&mut text, names, protocol.name.name, role)?;
    put_states(&mut text, alloc, names, local.states.as_slice())?;
    put_bytes(out, text.as_slice())
}

// The first line.
fn put_head(text: &mut Vec<u8>, names: &Names, protocol: NameId, role: NameId) -> Result<(), Memory>
    ensures { OnOk result (text.new.items ≡ text.old.items ++ (codes "local " ++ (name_in names.now protocol ++ (codes "@" ++ (name_in names.now role ++ line_end))))) }
{
    put_bytes(text, b"local ".as_slice())?;
    put_name(text, names, protocol)?;
    put_bytes(text, b"@".as_slice())?;
    put_name(text, names, role)?;
    put_bytes(text, b"\n".as_slice())
}

fn put_states(
    text: &mut Vec<u8>,
    alloc: Global,
    names: &Names,
    states: &[LocalState],
) -> Result<(), Memory>
    ensures { OnOk result (text.new.items ≡ text.old.items ++ states_text names.now 0 states.now) }
{
    for (number, state) in states.iter().enumerate() {
        put_number(text, alloc, number as u64)?;
        put_state(text, alloc, names, state)?;
    }
    Ok(())
}

fn put_state(
    text: &mut Vec<u8>,
    alloc: Global,
    names: &Names,
    state: &LocalState,
) -> Result<(), Memory>
    ensures { OnOk result (text.new.items ≡ text.old.items ++ state_text names.now state.now) }
{
    match state {
        LocalState::End => put_bytes(text, b": end\n".as_slice()),
        LocalState::Send(role, payload, next) => {
            put_bytes(text, b": send ".as_slice())?;
            put_message(text, alloc, names, *role, payload, *next)
        }
        LocalState::Recv(role, payload, next) => {
            put_bytes(text, b": recv ".as_slice())?;
            put_message(text, alloc, names, *role, payload, *next)
        }
        LocalState::Pick(role, labels) => {
            put_bytes(text, b": pick ".as_slice())?;
            put_choice(text, alloc, names, *role, labels.as_slice())
        }
        LocalState::Branch(role, labels) => {
            put_bytes(text, b": branch ".as_slice())?;
            put_choice(text, alloc, names, *role, labels.as_slice())
        }
    }
}

fn put_message(
    text: &mut Vec<u8>,
    alloc: Global,
    names: &Names,
    role: NameId,
    payload: &Payload,
    next: u32,
) -> Result<(), Memory>
    ensures { OnOk result (text.new.items ≡ text.old.items ++ message_text names.now role payload.now next) }
{
    put_name(text, names, role)?;
    put_bytes(text, b" ".as_slice())?;
    put_payload(text, names, payload)?;
    put_next(text, alloc, next)?;
    put_bytes(text, b"\n".as_slice())
}

// The number of the next state, after a space.
fn put_next(text: &mut Vec<u8>, alloc: Global, next: u32) -> Result<(), Memory>
    ensures { OnOk result (text.new.items ≡ text.old.items ++ (codes " " ++ decimal next)) }
{
    put_bytes(text, b" ".as_slice())?;
    put_number(text, alloc, u64::from(next))
}

fn put_payload(text: &mut Vec<u8>, names: &Names, payload: &Payload) -> Result<(), Memory>
    ensures { OnOk result (text.new.items ≡ text.old.items ++ payload_text names.now payload.now) }
{
    match payload {
        Payload::Plain(sort) => put_bytes(text, sort_text(*sort)),
        Payload::Endpoint {
            protocol,
            state,
            role,
        } => {
            put_name(text, names, protocol.name)?;
            put_bytes(text, b".".as_slice())?;
            put_name(text, names, state.name)?;
            put_bytes(text, b"@".as_slice())?;
            put_name(text, names, role.name)
        }
    }
}

fn sort_text(sort: Sort) -> &'static [u8]
    ensures { result.now ≡ sort_text sort }
{
    match sort {
        Sort::Int => b"int",
        Sort::Bool => b"bool",
        Sort::Text => b"text",
    }
}

fn put_choice(
    text: &mut Vec<u8>,
    alloc: Global,
    names: &Names,
    role: NameId,
    labels: &[(NameId, u32)],
) -> Result<(), Memory>
    ensures { OnOk result (text.new.items ≡ text.old.items ++ choice_text names.now role labels.now) }
{
    put_name(text, names, role)?;
    put_labels(text, alloc, names, labels)?;
    put_bytes(text, b"\n".as_slice())
}

fn put_labels(
    text: &mut Vec<u8>,
    alloc: Global,
    names: &Names,
    labels: &[(NameId, u32)],
) -> Result<(), Memory>
    ensures { OnOk result (text.new.items ≡ text.old.items ++ labels_text names.now labels.now) }
{
    for label in labels {
        put_bytes(text, b" ".as_slice())?;
        put_name(text, names, label.0)?;
        put_next(text, alloc, label.1)?;
    }
    Ok(())
}
