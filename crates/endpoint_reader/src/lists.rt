//! Lists of names.

ghost use Rattle.std.specs.Prelude.{IfOk, IfErr, ◌∷◌, []};
ghost use Rattle.grammar.specs.Readers.{Reads, Halts, Tells, split_of};
ghost use Rattle.endpoint_grammar.specs.Grammar.{two_names, three_names, role_of_channel, names, sessions, signature};
ghost use Rattle.endpoint_grammar.specs.Values.{rules, session_list};
ghost use Rattle.endpoint_reader.specs.Tokens.{from, all_named};
ghost use Rattle.endpoint_reader.specs.Known.{AreThere, AreTwoThere, AreThreeThere, IsSignatureThere};
ghost use Rattle.endpoint_reader.specs.Signatures.{two_of, three_of, role_of, signed, signature_of};

use crate::input::{Input, Named};
use chor_base::{Denied, List};
use chor_lexer::Mark;
use std::alloc::Global;

/// How many sessions a procedure may have.
const SESSIONS: usize = 8;

/// Two names, one after another.
#[derive(Clone, Copy, PartialEq, Eq)]
pub struct Two {
    pub first: Named,
    pub second: Named,
}

/// Three names, one after another.
#[derive(Clone, Copy)]
pub struct Three {
    pub first: Named,
    pub second: Named,
    pub third: Named,
}

/// A procedure and one of its parameters, and names of sessions.
#[derive(Drop)]
pub struct Signature {
    pub name: Named,
    pub param: Named,
    pub sessions: List<Named>,
}

/// NAME NAME
pub fn read_two_names(input: &Input, at: usize) -> Result<(Two, usize), Denied>
    ensures reads { IfOk result (λ x. Reads rules two_names (from input.now at) (two_of input.now x.0) (from input.now x.1)) }
    ensures known { IfOk result (λ x. AreTwoThere input.now x.0) }
    ensures halts { IfErr result (Halts rules two_names (from input.now at)) }
{
    let (first, at) = input.take_name(at)?;
    let (second, at) = input.take_name(at)?;
    Ok((Two { first, second }, at))
}

/// NAME NAME NAME
pub fn read_three_names(input: &Input, at: usize) -> Result<(Three, usize), Denied>
    ensures reads { IfOk result (λ x. Reads rules three_names (from input.now at) (three_of input.now x.0) (from input.now x.1)) }
    ensures known { IfOk result (λ x. AreThreeThere input.now x.0) }
    ensures halts { IfErr result (Halts rules three_names (from input.now at)) }
{
    let (first, at) = input.take_name(at)?;
    let (second, at) = input.take_name(at)?;
    let (third, at) = input.take_name(at)?;
    Ok((
        Three {
            first,
            second,
            third,
        },
        at,
    ))
}

/// NAME "[" NAME "]"
pub fn read_role_of_channel(input: &Input, at: usize) -> Result<(Two, usize), Denied>
    ensures reads { IfOk result (λ x. Reads rules role_of_channel (from input.now at) (role_of input.now x.0) (from input.now x.1)) }
    ensures known { IfOk result (λ x. AreTwoThere input.now x.0) }
    ensures halts { IfErr result (Halts rules role_of_channel (from input.now at)) }
{
    let (first, at) = input.take_name(at)?;
    let at = input.take_mark(at, Mark::OpenBracket)?;
    let (second, at) = input.take_name(at)?;
    let at = input.take_mark(at, Mark::CloseBracket)?;
    Ok((Two { first, second }, at))
}

/// [ names ], for sessions
pub fn read_sessions(
    alloc: Global,
    input: &Input,
    at: usize,
) -> Result<(List<Named>, usize), Denied>
    ensures reads { IfOk result (λ x. Tells rules sessions session_list (from input.now at) (all_named input.now x.0) (from input.now x.1)) }
    ensures known { IfOk result (λ x. AreThere input.now x.0) }
    ensures halts { IfErr result (Halts rules sessions (from input.now at)) }
{
    let Some(_) = input.name_at(at) else {
        return Ok((List::new(alloc), at));
    };
    let (names, after) = read_names(alloc, input, at, SESSIONS)?;
    Ok((names, after))
}

// NAME { "," NAME }, so many
fn read_names(
    alloc: Global,
    input: &Input,
    at: usize,
    limit: usize,
) -> Result<(List<Named>, usize), Denied>
    ensures reads { IfOk result (λ x. Reads rules (names limit) (from input.now at) (split_of (all_named input.now x.0)) (from input.now x.1)) }
    ensures known { IfOk result (λ x. AreThere input.now x.0) }
    ensures halts { IfErr result (Halts rules (names limit) (from input.now at)) }
{
    let (first, mut at) = input.take_item(at, limit)?;
    let mut names = List::new(alloc);
    names.push(first)?;
    while let Some(after) = input.after_mark(at, Mark::Comma) {
        let (name, more) = input.take_item(after, limit.saturating_sub(names.len()))?;
        names.push(name)?;
        at = more;
    }
    Ok((names, at))
}

/// NAME NAME "(" [ names ] ")"
pub fn read_signature(alloc: Global, input: &Input, at: usize) -> Result<(Signature, usize), Denied>
    ensures reads { IfOk result (λ x. Tells rules signature signed (from input.now at) (signature_of input.now x.0) (from input.now x.1)) }
    ensures known { IfOk result (λ x. IsSignatureThere input.now x.0) }
    ensures halts { IfErr result (Halts rules signature (from input.now at)) }
{
    let (names, at) = read_two_names(input, at)?;
    let at = input.take_mark(at, Mark::OpenParen)?;
    let (sessions, at) = read_sessions(alloc, input, at)?;
    let at = input.take_mark(at, Mark::CloseParen)?;
    let signature = Signature {
        name: names.first,
        param: names.second,
        sessions,
    };
    Ok((signature, at))
}
