//! Protocols and services.

ghost use Rattle.std.specs.Prelude.{◌-◌, List, codes, IfOk, IfErr, IfSome, IfNone};
ghost use Rattle.chor_base.specs.declared.value.Sort.{Sort};
ghost use Rattle.chor_lexer.specs.declared.token.Token.{Token};
ghost use Rattle.source_grammar.specs.Symbols.{Nothing, Halts};
ghost use Rattle.source_grammar.specs.Grammar.{SortIs};
ghost use Rattle.source_grammar.specs.Parts.{AName, OrComma, OrBar, SortPart, PayloadPart, ArmPart, ArmsPart, StepPart, StatePart, StatesPart, ProtocolPart, ServedPart, ServicePart};
ghost use Rattle.source_reader.specs.Reading.{names_of, tokens_from, ReadsTo, ReadsAfter, HaltsAfter, ReadsAfterColon, HaltsAfterColon};

use crate::input::Input;
use crate::limits::{LABELS, ROLES, STATES};
use crate::lists::read_names;
use chor_base::{Denied, List, Rule, Sort};
use chor_lexer::Mark;
use chor_tree::{Named, Payload, ProtoArm, ProtoStep, Protocol, Service, State};
use std::alloc::Global;

/// A protocol after its keyword: `"protocol" NAME "(" names ")" "{" state { state } "}"`.
pub fn read_protocol(alloc: Global, input: &Input, at: usize) -> Result<(Protocol, usize), Denied>
    ensures reads { IfOk result (λ x. ReadsAfter ProtocolPart (codes "protocol") input.now at x.0 x.1) }
    ensures halts { IfErr result (λ d. HaltsAfter ProtocolPart (codes "protocol") input.now at d) }
{
    let (name, at) = input.take_name(at)?;
    let at = input.take_mark(at, Mark::OpenParen)?;
    let (roles, at) = read_names(alloc, input, at, ROLES)?;
    let at = input.take_mark(at, Mark::CloseParen)?;
    let at = input.take_mark(at, Mark::OpenBrace)?;
    let (states, at) = read_states(alloc, input, at)?;
    let at = input.take_mark(at, Mark::CloseBrace)?;
    Ok((
        Protocol {
            name,
            roles,
            states,
        },
        at,
    ))
}

// state { state }
fn read_states(alloc: Global, input: &Input, at: usize) -> Result<(List<State>, usize), Denied>
    ensures reads { IfOk result (λ x. ReadsTo StatesPart AName input.now at x.0 x.1) }
    ensures halts { IfErr result (Halts StatesPart AName (names_of input.now) (tokens_from input.now at)) }
{
    let (first, mut at) = read_state(alloc, input, at)?;
    let mut states = List::new(alloc);
    states.push(first)?;
    'states: while input.has_name(at) {
        input.room_for_name(at, states.len(), STATES)?;
        let (state, more) = read_state(alloc, input, at)?;
        states.push(state)?;
        at = more;
    }
    Ok((states, at))
}

// state = NAME "=" step ";"
fn read_state(alloc: Global, input: &Input, at: usize) -> Result<(State, usize), Denied>
    ensures reads { IfOk result (λ x. ReadsTo StatePart Nothing input.now at x.0 x.1) }
    ensures halts { IfErr result (Halts StatePart Nothing (names_of input.now) (tokens_from input.now at)) }
{
    let (name, at) = input.take_name(at)?;
    let at = input.take_mark(at, Mark::Assign)?;
    let (step, at) = read_step(alloc, input, at)?;
    let at = input.take_mark(at, Mark::Semicolon)?;
    Ok((State { name, step }, at))
}

// step = "end" | NAME "->" NAME ":" payload "then" NAME | NAME "->" NAME "{" arm { "," arm } "}"
fn read_step(alloc: Global, input: &Input, at: usize) -> Result<(ProtoStep, usize), Denied>
    ensures reads { IfOk result (λ x. ReadsTo StepPart Nothing input.now at x.0 x.1) }
    ensures halts { IfErr result (Halts StepPart Nothing (names_of input.now) (tokens_from input.now at)) }
{
    if let Some(at) = input.after_word(at, b"end") {
        return Ok((ProtoStep::End, at));
    }
    let (from, at) = input.take_name(at)?;
    let at = input.take_mark(at, Mark::Arrow)?;
    let (to, at) = input.take_name(at)?;
    if let Some(at) = input.after_mark(at, Mark::Colon) {
        return read_value_step(from, to, input, at);
    }
    let at = input.take_mark(at, Mark::OpenBrace)?;
    let (arms, at) = read_arms(alloc, input, at)?;
    let at = input.take_mark(at, Mark::CloseBrace)?;
    Ok((ProtoStep::Choice { from, to, arms }, at))
}

// payload "then" NAME
fn read_value_step(
    from: Named,
    to: Named,
    input: &Input,
    at: usize,
) -> Result<(ProtoStep, usize), Denied>
    ensures reads { IfOk result (λ x. ReadsAfterColon StepPart from to input.now at x.0 x.1) }
    ensures halts { IfErr result (λ d. HaltsAfterColon StepPart from to input.now at d) }
{
    let (payload, at) = read_payload(input, at)?;
    let at = input.take_word(at, b"then")?;
    let (next, at) = input.take_name(at)?;
    let step = ProtoStep::Value {
        from,
        to,
        payload,
        next,
    };
    Ok((step, at))
}

// arm { "," arm }
fn read_arms(alloc: Global, input: &Input, at: usize) -> Result<(List<ProtoArm>, usize), Denied>
    ensures reads { IfOk result (λ x. ReadsTo (ArmsPart 64) (OrComma Nothing) input.now at x.0 x.1) }
    ensures halts { IfErr result (Halts (ArmsPart 64) (OrComma Nothing) (names_of input.now) (tokens_from input.now at)) }
{
    let (first, mut at) = read_arm(input, at)?;
    let mut arms = List::new(alloc);
    arms.push(first)?;
    while let Some(after) = input.after_mark(at, Mark::Comma) {
        input.room_for_name(after, arms.len(), LABELS)?;
        let (arm, more) = read_arm(input, after)?;
        arms.push(arm)?;
        at = more;
    }
    Ok((arms, at))
}

// arm = NAME "then" NAME
fn read_arm(input: &Input, at: usize) -> Result<(ProtoArm, usize), Denied>
    ensures reads { IfOk result (λ x. ReadsTo ArmPart Nothing input.now at x.0 x.1) }
    ensures halts { IfErr result (Halts ArmPart Nothing (names_of input.now) (tokens_from input.now at)) }
{
    let (label, at) = input.take_name(at)?;
    let at = input.take_word(at, b"then")?;
    let (next, at) = input.take_name(at)?;
    Ok((ProtoArm { label, next }, at))
}

// payload = sort | NAME "." NAME "@" NAME
fn read_payload(input: &Input, at: usize) -> Result<(Payload, usize), Denied>
    ensures reads { IfOk result (λ x. ReadsTo PayloadPart Nothing input.now at x.0 x.1) }
    ensures halts { IfErr result (Halts PayloadPart Nothing (names_of input.now) (tokens_from input.now at)) }
{
    if let Some((sort, at)) = sort_at(input, at) {
        return Ok((Payload::Plain(sort), at));
    }
    let (protocol, at) = input.take_name(at)?;
    let at = input.take_mark(at, Mark::Dot)?;
    let (state, at) = input.take_name(at)?;
    let at = input.take_mark(at, Mark::At)?;
    let (role, at) = input.take_name(at)?;
    let payload = Payload::Endpoint {
        protocol,
        state,
        role,
    };
    Ok((payload, at))
}

// sort = "int" | "bool" | "text", if it stands here
fn sort_at(input: &Input, at: usize) -> Option<(Sort, usize)>
    ensures found { IfSome result (λ x. SortIs (names_of input.now) (tokens_from input.now at) x.0 (tokens_from input.now x.1)) }
    ensures none { IfNone result ((s : Sort) (rest : List Token) → SortIs (names_of input.now) (tokens_from input.now at) s rest → ⊥) }
{
    if let Some(after) = input.after_word(at, b"int") {
        return Some((Sort::Int, after));
    }
    if let Some(after) = input.after_word(at, b"bool") {
        return Some((Sort::Bool, after));
    }
    let after = input.after_word(at, b"text")?;
    Some((Sort::Text, after))
}

// sort
pub fn take_sort(input: &Input, at: usize) -> Result<(Sort, usize), Denied>
    ensures read { IfOk result (λ x. SortIs (names_of input.now) (tokens_from input.now at) x.0 (tokens_from input.now x.1)) }
    ensures halts { IfErr result (Halts SortPart Nothing (names_of input.now) (tokens_from input.now at)) }
{
    match sort_at(input, at) {
        Some(found) => Ok(found),
        None => Err(input.refused(Rule::P1, at)),
    }
}

/// A service after its keyword: `"service" NAME ":" NAME "(" names [ "|" names ] ")" ";"`.
pub fn read_service(alloc: Global, input: &Input, at: usize) -> Result<(Service, usize), Denied>
    ensures reads { IfOk result (λ x. ReadsAfter ServicePart (codes "service") input.now at x.0 x.1) }
    ensures halts { IfErr result (λ d. HaltsAfter ServicePart (codes "service") input.now at d) }
{
    let (name, at) = input.take_name(at)?;
    let at = input.take_mark(at, Mark::Colon)?;
    let (protocol, at) = input.take_name(at)?;
    let at = input.take_mark(at, Mark::OpenParen)?;
    let (active, at) = read_names(alloc, input, at, ROLES)?;
    let (serve, at) = read_serve(alloc, input, at, active.len())?;
    let at = input.take_mark(at, Mark::CloseParen)?;
    let at = input.take_mark(at, Mark::Semicolon)?;
    let service = Service {
        name,
        protocol,
        active,
        serve,
    };
    Ok((service, at))
}

// [ "|" names ], where so many roles are active
fn read_serve(
    alloc: Global,
    input: &Input,
    at: usize,
    active: usize,
) -> Result<(List<Named>, usize), Denied>
    ensures reads { IfOk result (λ x. ReadsTo (ServedPart (16 - active)) OrBar input.now at x.0 x.1) }
    ensures halts { IfErr result (Halts (ServedPart (16 - active)) OrBar (names_of input.now) (tokens_from input.now at)) }
{
    match input.after_mark(at, Mark::Bar) {
        Some(at) => read_names(alloc, input, at, ROLES.saturating_sub(active)),
        None => Ok((List::new(alloc), at)),
    }
}
