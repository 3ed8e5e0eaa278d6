//! The heads of procedures.

ghost use Rattle.std.specs.Prelude.{IfOk, IfErr};
ghost use Rattle.source_grammar.specs.Symbols.{Nothing, Halts};
ghost use Rattle.source_grammar.specs.Parts.{OrComma, AParen, OrSession, OrParams, VariablePart, VarsPart, VariablesPart, ProcParamPart, ProcParamsPart, HolderPart, HoldersPart, SessionParamPart, SessionParamsPart, SessionsPart, ParamsPart};
ghost use Rattle.source_reader.specs.Reading.{names_of, tokens_from, ReadsTo};

use crate::input::Input;
use crate::limits::{PARAMETERS, VARIABLES};
use crate::protocol::take_sort;
use chor_base::{Denied, List, Sort};
use chor_lexer::Mark;
use chor_tree::{Named, ProcParam, SessionParam};
use std::alloc::Global;

/// The parameters of a procedure.
#[derive(Drop)]
pub struct Parameters {
    pub params: List<ProcParam>,
    pub sessions: List<SessionParam>,
}

/// The parameters of a procedure: `[ parameter { "," parameter } [ ";" session { "," session } ] ]`.
pub fn read_parameters(
    alloc: Global,
    input: &Input,
    at: usize,
) -> Result<(Parameters, usize), Denied>
    ensures reads { IfOk result (λ x. ReadsTo ParamsPart OrParams input.now at (x.0.params, x.0.sessions) x.1) }
    ensures halts { IfErr result (Halts ParamsPart OrParams (names_of input.now) (tokens_from input.now at)) }
{
    if !input.has_name(at) {
        let parameters = Parameters {
            params: List::new(alloc),
            sessions: List::new(alloc),
        };
        return Ok((parameters, at));
    }
    let (params, at) = read_process_params(alloc, input, at)?;
    let (sessions, at) = read_sessions(alloc, input, at)?;
    Ok((Parameters { params, sessions }, at))
}

// parameter { "," parameter }
fn read_process_params(
    alloc: Global,
    input: &Input,
    at: usize,
) -> Result<(List<ProcParam>, usize), Denied>
    ensures reads { IfOk result (λ x. ReadsTo ProcParamsPart (OrComma AParen) input.now at x.0 x.1) }
    ensures halts { IfErr result (Halts ProcParamsPart (OrComma AParen) (names_of input.now) (tokens_from input.now at)) }
{
    let (first, mut at) = read_process_param(alloc, input, at)?;
    let mut params = List::new(alloc);
    params.push(first)?;
    while let Some(after) = input.after_mark(at, Mark::Comma) {
        input.room_for_name(after, params.len(), PARAMETERS)?;
        let (param, more) = read_process_param(alloc, input, after)?;
        params.push(param)?;
        at = more;
    }
    Ok((params, at))
}

// parameter = NAME [ "(" NAME ":" sort { "," NAME ":" sort } ")" ]
fn read_process_param(alloc: Global, input: &Input, at: usize) -> Result<(ProcParam, usize), Denied>
    ensures reads { IfOk result (λ x. ReadsTo ProcParamPart AParen input.now at x.0 x.1) }
    ensures halts { IfErr result (Halts ProcParamPart AParen (names_of input.now) (tokens_from input.now at)) }
{
    let (name, at) = input.take_name(at)?;
    let (vars, at) = read_any_vars(alloc, input, at)?;
    Ok((ProcParam { name, vars }, at))
}

// [ "(" NAME ":" sort { "," NAME ":" sort } ")" ]
fn read_any_vars(
    alloc: Global,
    input: &Input,
    at: usize,
) -> Result<(List<(Named, Sort)>, usize), Denied>
    ensures reads { IfOk result (λ x. ReadsTo VariablesPart AParen input.now at x.0 x.1) }
    ensures halts { IfErr result (Halts VariablesPart AParen (names_of input.now) (tokens_from input.now at)) }
{
    let Some(after) = input.after_mark(at, Mark::OpenParen) else {
        return Ok((List::new(alloc), at));
    };
    let (vars, at) = read_vars(alloc, input, after)?;
    let at = input.take_mark(at, Mark::CloseParen)?;
    Ok((vars, at))
}

// NAME ":" sort { "," NAME ":" sort }
fn read_vars(
    alloc: Global,
    input: &Input,
    at: usize,
) -> Result<(List<(Named, Sort)>, usize), Denied>
    ensures reads { IfOk result (λ x. ReadsTo VarsPart (OrComma Nothing) input.now at x.0 x.1) }
    ensures halts { IfErr result (Halts VarsPart (OrComma Nothing) (names_of input.now) (tokens_from input.now at)) }
{
    let (first, mut at) = read_var(input, at)?;
    let mut vars = List::new(alloc);
    vars.push(first)?;
    while let Some(after) = input.after_mark(at, Mark::Comma) {
        input.room_for_name(after, vars.len(), VARIABLES)?;
        let (var, more) = read_var(input, after)?;
        vars.push(var)?;
        at = more;
    }
    Ok((vars, at))
}

// NAME ":" sort
fn read_var(input: &Input, at: usize) -> Result<((Named, Sort), usize), Denied>
    ensures reads { IfOk result (λ x. ReadsTo VariablePart Nothing input.now at x.0 x.1) }
    ensures halts { IfErr result (Halts VariablePart Nothing (names_of input.now) (tokens_from input.now at)) }
{
    let (name, at) = input.take_name(at)?;
    let at = input.take_mark(at, Mark::Colon)?;
    let (sort, at) = take_sort(input, at)?;
    Ok(((name, sort), at))
}

// [ ";" session { "," session } ]
fn read_sessions(
    alloc: Global,
    input: &Input,
    at: usize,
) -> Result<(List<SessionParam>, usize), Denied>
    ensures reads { IfOk result (λ x. ReadsTo SessionsPart OrSession input.now at x.0 x.1) }
    ensures halts { IfErr result (Halts SessionsPart OrSession (names_of input.now) (tokens_from input.now at)) }
{
    match input.after_mark(at, Mark::Semicolon) {
        Some(at) => read_session_params(alloc, input, at),
        None => Ok((List::new(alloc), at)),
    }
}

// session { "," session }
fn read_session_params(
    alloc: Global,
    input: &Input,
    at: usize,
) -> Result<(List<SessionParam>, usize), Denied>
    ensures reads { IfOk result (λ x. ReadsTo SessionParamsPart (OrComma Nothing) input.now at x.0 x.1) }
    ensures halts { IfErr result (Halts SessionParamsPart (OrComma Nothing) (names_of input.now) (tokens_from input.now at)) }
{
    let (first, mut at) = read_session_param(alloc, input, at)?;
    let mut sessions = List::new(alloc);
    sessions.push(first)?;
    while let Some(after) = input.after_mark(at, Mark::Comma) {
        input.room_for_name(after, sessions.len(), PARAMETERS)?;
        let (session, more) = read_session_param(alloc, input, after)?;
        sessions.push(session)?;
        at = more;
    }
    Ok((sessions, at))
}

// session = NAME ":" NAME "." NAME "{" NAME "=" NAME { "," NAME "=" NAME } "}"
fn read_session_param(
    alloc: Global,
    input: &Input,
    at: usize,
) -> Result<(SessionParam, usize), Denied>
    ensures reads { IfOk result (λ x. ReadsTo SessionParamPart Nothing input.now at x.0 x.1) }
    ensures halts { IfErr result (Halts SessionParamPart Nothing (names_of input.now) (tokens_from input.now at)) }
{
    let (name, at) = input.take_name(at)?;
    let at = input.take_mark(at, Mark::Colon)?;
    let (protocol, at) = input.take_name(at)?;
    let at = input.take_mark(at, Mark::Dot)?;
    let (state, at) = input.take_name(at)?;
    let at = input.take_mark(at, Mark::OpenBrace)?;
    let (holders, at) = read_holders(alloc, input, at)?;
    let at = input.take_mark(at, Mark::CloseBrace)?;
    let session = SessionParam {
        name,
        protocol,
        state,
        holders,
    };
    Ok((session, at))
}

// NAME "=" NAME { "," NAME "=" NAME }
fn read_holders(
    alloc: Global,
    input: &Input,
    at: usize,
) -> Result<(List<(Named, Named)>, usize), Denied>
    ensures reads { IfOk result (λ x. ReadsTo HoldersPart (OrComma Nothing) input.now at x.0 x.1) }
    ensures halts { IfErr result (Halts HoldersPart (OrComma Nothing) (names_of input.now) (tokens_from input.now at)) }
{
    let (first, mut at) = read_holder(input, at)?;
    let mut holders = List::new(alloc);
    holders.push(first)?;
    while let Some(after) = input.after_mark(at, Mark::Comma) {
        let (holder, more) = read_holder(input, after)?;
        holders.push(holder)?;
        at = more;
    }
    Ok((holders, at))
}

// NAME "=" NAME
fn read_holder(input: &Input, at: usize) -> Result<((Named, Named), usize), Denied>
    ensures reads { IfOk result (λ x. ReadsTo HolderPart Nothing input.now at x.0 x.1) }
    ensures halts { IfErr result (Halts HolderPart Nothing (names_of input.now) (tokens_from input.now at)) }
{
    let (role, at) = input.take_name(at)?;
    let at = input.take_mark(at, Mark::Assign)?;
    let (holder, at) = input.take_name(at)?;
    Ok(((role, holder), at))
}
