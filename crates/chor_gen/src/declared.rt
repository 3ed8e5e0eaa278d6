//! The protocols and the services of the generated file.

ghost use Rattle.std.specs.Prelude.{◌≡◌, IfOk, codes, [], ◌∷◌};
ghost use Rattle.chor_gen.specs.Words.{named_in};
ghost use Rattle.chor_gen.specs.Generated.{passes, stops, round, fork, round_service, fork_service};

use crate::words::Words;
use chor_base::{List, Memory, Sort};
use chor_tree::{Payload, ProtoArm, ProtoStep, Protocol, Service, State};
use std::alloc::Global;

// Both protocols.
pub fn protocols(alloc: Global, words: &Words) -> Result<List<Protocol>, Memory>
    ensures { IfOk result (λ protocols. protocols ≡ round (named_in words.now.names) ∷ fork (named_in words.now.names) ∷ []) }
{
    let round = round(alloc, words)?;
    let fork = fork(alloc, words)?;
    Ok(List::from_vec(vec![in alloc; round, fork]?))
}

// Three roles send a number round.
fn round(alloc: Global, words: &Words) -> Result<Protocol, Memory>
    ensures { IfOk result (λ protocol. protocol ≡ round (named_in words.now.names)) }
{
    let roles = [words.at(b"A"), words.at(b"B"), words.at(b"C")];
    let roles = List::from_slice(alloc, roles.as_slice())?;
    let states = vec![in alloc;
        passes(words, b"s", b"A", b"B", b"t"),
        passes(words, b"t", b"B", b"C", b"u"),
        passes(words, b"u", b"C", b"A", b"v"),
        stops(words, b"v"),
    ]?;
    Ok(Protocol {
        name: words.at(b"Round"),
        roles,
        states: List::from_vec(states),
    })
}

// One role tells another a label.
fn fork(alloc: Global, words: &Words) -> Result<Protocol, Memory>
    ensures { IfOk result (λ protocol. protocol ≡ fork (named_in words.now.names)) }
{
    let (from, to, next) = (words.at(b"A"), words.at(b"B"), words.at(b"t"));
    let roles = [from, to];
    let more = ProtoArm {
        label: words.at(b"more"),
        next,
    };
    let less = ProtoArm {
        label: words.at(b"less"),
        next,
    };
    let roles = List::from_slice(alloc, roles.as_slice())?;
    let arms = List::from_slice(alloc, [more, less].as_slice())?;
    let first = State {
        name: words.at(b"s"),
        step: ProtoStep::Choice { from, to, arms },
    };
    let states = vec![in alloc; first, stops(words, b"t")]?;
    Ok(Protocol {
        name: words.at(b"Fork"),
        roles,
        states: List::from_vec(states),
    })
}

// A state in which one role sends another a number.
fn passes(words: &Words, state: &[u8], from: &[u8], to: &[u8], next: &[u8]) -> State
    ensures { result ≡ passes (named_in words.now.names) state.now from.now to.now next.now }
{
    State {
        name: words.at(state),
        step: ProtoStep::Value {
            from: words.at(from),
            to: words.at(to),
            payload: Payload::Plain(Sort::Int),
            next: words.at(next),
        },
    }
}

// A state after which nothing comes.
fn stops(words: &Words, state: &[u8]) -> State
    ensures { result ≡ stops (named_in words.now.names) state.now }
{
    State {
        name: words.at(state),
        step: ProtoStep::End,
    }
}

// Both services.
pub fn services(alloc: Global, words: &Words) -> Result<List<Service>, Memory>
    ensures { IfOk result (λ services. services ≡ round_service (named_in words.now.names) ∷ fork_service (named_in words.now.names) ∷ []) }
{
    let active = [words.at(b"A"), words.at(b"B")];
    let round = Service {
        name: words.at(b"a"),
        protocol: words.at(b"Round"),
        active: List::from_slice(alloc, active.as_slice())?,
        serve: List::from_slice(alloc, [words.at(b"C")].as_slice())?,
    };
    let fork = Service {
        name: words.at(b"b"),
        protocol: words.at(b"Fork"),
        active: List::from_slice(alloc, active.as_slice())?,
        serve: List::new(alloc),
    };
    Ok(List::from_vec(vec![in alloc; round, fork]?))
}
