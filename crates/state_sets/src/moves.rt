//! The exchanges of a protocol as one role takes part in them.

ghost use Rattle.std.specs.Prelude.{◌≡◌, ◌++◌, ◌<◌, ◌≤◌, ◌^◌, OnOk, IfOk, Some, None, length, if◌then◌else◌};
ghost use Rattle.std.specs.List.{flat_map};
ghost use Rattle.global_types.specs.Moves.{IsIn};
ghost use Rattle.chor_base.specs.FirstPlaces.{with_place};
ghost use Rattle.state_sets.specs.Places.{place_in, ArePlaces};
ghost use Rattle.state_sets.specs.Moves.{AreMoves, choice_act, value_act, move_to, arms_by, step_by, moves_by, moves_from};

use crate::act::Act;
use chor_base::{List, Memory, NameId, NameMap};
use chor_tree::{Payload, ProtoArm, ProtoStep, Protocol};
use std::alloc::Global;

/// An exchange that leads from a state to a state, and what the role does in it, if anything.
#[derive(Clone, Copy)]
pub struct Move {
    pub from: u32,
    pub act: Option<Act>,
    pub to: u32,
}

// All exchanges of a protocol, for a role.
pub fn moves(alloc: Global, protocol: &Protocol, role: NameId) -> Result<Vec<Move>, Memory>
    ensures { IfOk result (λ v. v.items ≡ moves_from protocol.now.states role 0 protocol.now.states) }
{
    let places = places(alloc, protocol)?;
    placed_moves(alloc, protocol, &places, role)
}

// The exchanges, where names stand for the states that they have in a table.
fn placed_moves(
    alloc: Global,
    protocol: &Protocol,
    places: &NameMap<u32>,
    role: NameId,
) -> Result<Vec<Move>, Memory>
    ensures { IfOk result (λ v. v.items ≡ moves_by (place_in places.now.map) role 0 protocol.now.states) }
{
    let mut moves = Vec::new(alloc);
    let states = protocol.states.as_slice();
    for number in 0..protocol.states.count() {
        let step = &states[number as usize].step;
        add_step(&mut moves, places, role, number, step)?;
    }
    Ok(moves)
}

// The number of the first state of each name.
fn places(alloc: Global, protocol: &Protocol) -> Result<NameMap<u32>, Memory>
    ensures { IfOk result (λ places. ArePlaces protocol.now.states places.map) }
{
    let mut places = NameMap::new(alloc);
    let states = protocol.states.as_slice();
    for number in 0..protocol.states.count() {
        let state = &states[number as usize];
        add_place(&mut places, state.name.name, number)?;
    }
    Ok(places)
}

// A name gets a number, unless it has one.
fn add_place(places: &mut NameMap<u32>, name: NameId, number: u32) -> Result<(), Memory>
    ensures { OnOk result (places.new.map ≡ with_place places.old.map name number) }
{
    if places.get(name).is_none() {
        places.reserve()?;
        places.set(name, number);
    }
    Ok(())
}

fn add_step(
    moves: &mut Vec<Move>,
    places: &NameMap<u32>,
    role: NameId,
    from: u32,
    step: &ProtoStep,
) -> Result<(), Memory>
    ensures { OnOk result (moves.new.items ≡ moves.old.items ++ step_by (place_in places.now.map) role from step.now) }
{
    match step {
        ProtoStep::End => Ok(()),
        ProtoStep::Value {
            from: sender,
            to: receiver,
            payload,
            next,
        } => {
            let act = value_act(role, sender.name, receiver.name, *payload);
            add_move(moves, places, from, act, next.name)
        }
        ProtoStep::Choice {
            from: sender,
            to: receiver,
            arms,
        } => add_arms(
            moves,
            places,
            from,
            Parties {
                role,
                sender: sender.name,
                receiver: receiver.name,
            },
            arms.as_slice(),
        ),
    }
}

// A role, and the two roles of an exchange.
#[derive(Clone, Copy)]
struct Parties {
    role: NameId,
    sender: NameId,
    receiver: NameId,
}

fn add_arms(
    moves: &mut Vec<Move>,
    places: &NameMap<u32>,
    from: u32,
    parties: Parties,
    arms: &[ProtoArm],
) -> Result<(), Memory>
    ensures { OnOk result (moves.new.items ≡ moves.old.items ++ arms_by (place_in places.now.map) parties.role from parties.sender parties.receiver arms.now) }
{
    for arm in arms {
        let act = choice_act(
            parties.role,
            parties.sender,
            parties.receiver,
            arm.label.name,
        );
        add_move(moves, places, from, act, arm.next.name)?;
    }
    Ok(())
}

fn value_act(role: NameId, from: NameId, to: NameId, payload: Payload) -> Option<Act>
    ensures { result ≡ value_act role from to payload }
{
    if from == role {
        Some(Act::Send(to, payload))
    } else if to == role {
        Some(Act::Recv(from, payload))
    } else {
        None
    }
}

fn choice_act(role: NameId, from: NameId, to: NameId, label: NameId) -> Option<Act>
    ensures { result ≡ choice_act role from to label }
{
    if from == role {
        Some(Act::Pick(to, label))
    } else if to == role {
        Some(Act::Branch(from, label))
    } else {
        None
    }
}

fn add_move(
    moves: &mut Vec<Move>,
    places: &NameMap<u32>,
    from: u32,
    act: Option<Act>,
    next: NameId,
) -> Result<(), Memory>
    ensures { OnOk result (moves.new.items ≡ moves.old.items ++ move_to from act (place_in places.now.map next)) }
{
    if let Some(to) = places.get(next) {
        moves.push(Move { from, act, to })?;
    }
    Ok(())
}
