//! Bodies.

ghost use Rattle.std.specs.Prelude.{◌≡◌, ◌-◌, ◌<◌, ◌≤◌, ◌++◌, ◌∷◌, [], All, Some, false, length, IfOk, IfErr, OnOk};
ghost use Rattle.chor_base.specs.declared.rule.Rule.TheVariants.{E4};
ghost use Rattle.chor_lexer.specs.declared.mark.Mark.TheVariants.{CloseBrace};
ghost use Rattle.grammar.specs.Grammars.{within, is_full};
ghost use Rattle.grammar.specs.Readers.{Halts, Misses};
ghost use Rattle.endpoint_grammar.specs.Grammar.{mark, node, lines_of, body as a_body, tail, branch, conditional, signature};
ghost use Rattle.endpoint_grammar.specs.Values.{rules};
ghost use Rattle.endpoint_reader.specs.declared.input.Input.{Input as AnyInput};
ghost use Rattle.endpoint_reader.specs.Tokens.{from};
ghost use Rattle.endpoint_reader.specs.Signatures.{two_of};
ghost use Rattle.endpoint_reader.specs.Lines.{body_at, Going};
ghost use Rattle.endpoint_reader.specs.Tails.{TailStands};
ghost use Rattle.endpoint_reader.specs.Known.{AreTwoThere, AreActionsThere, AreLabelsThere, AreLinesThere};
ghost use Rattle.endpoint_reader.specs.Bodies.{Grows, Made, IsBody, IsTail, IsBranch, IsConditional, IsCall, BodyOpens, BodyCloses, IsEndLine, BranchOpens, body_before, offered};

use crate::expression::read_expression;
use crate::input::Input;
use crate::lines::{Arm, Line, LineId, Lines};
use crate::lists::{Two, read_signature, read_two_names};
use crate::node::{Action, read_node};
use crate::tail::{TailWord, tail_word};
use chor_base::{Denied, List, Memory, Place, Rule};
use chor_lexer::Mark;
use std::alloc::Global;

// The nodes of a body up to its tail, where the tail begins, and for how many more nodes the path
// has room.
#[derive(Drop)]
pub struct Begun {
    pub actions: Vec<Action>,
    pub at: usize,
    pub room: usize,
}

/// The line with which a body begins whose path has room for so many nodes, and the place after it.
// Branches nest as deep as a path goes: what needs no recursion stands in functions of its own, so
// that little stays on the stack.
#[cycle(bodies)]
pub fn read_body(
    alloc: Global,
    input: &Input,
    at: usize,
    room: usize,
    lines: &mut Lines,
) -> Result<(LineId, usize), Denied>
    requires { AreLinesThere input.now lines.old.items }
    ensures reads { IfOk result (IsBody input.now room at lines.new.items) }
    ensures there { IfOk result (λ x. x.0.0 < length lines.new.items) }
    ensures grows { OnOk result (Grows lines.old.items lines.new.items) }
    ensures known { OnOk result (AreLinesThere input.now lines.new.items) }
    ensures halts { IfErr result (Halts rules (a_body room) (from input.now at)) }
{
    let begun = open_body(alloc, input, at, room)?;
    let (last, at) = read_tail(alloc, input, begun.at, begun.room, lines)?;
    close_body(input, at, begun.actions, last, lines)
}

// "{" { node ";" }, on a path with room for so many nodes
fn open_body(alloc: Global, input: &Input, at: usize, room: usize) -> Result<Begun, Denied>
    ensures opens { IfOk result (λ x. BodyOpens input.now room (from input.now at) x.actions.items x.room (from input.now x.at)) }
    ensures known { IfOk result (λ x. AreActionsThere input.now x.actions.items) }
    ensures halts { IfErr result (Halts rules (a_body room) (from input.now at)) }
{
    let at = input.take_mark(at, Mark::OpenBrace)?;
    let begun = read_actions(alloc, input, at, room)?;
    Ok(begun)
}

// The brace after a body, which begins with these actions and goes on with a line.
fn close_body(
    input: &Input,
    at: usize,
    actions: Vec<Action>,
    last: LineId,
    lines: &mut Lines,
) -> Result<(LineId, usize), Denied>
    requires last { last.0 < length lines.old.items }
    requires lines { AreLinesThere input.now lines.old.items }
    requires actions { AreActionsThere input.now actions.items }
    ensures closes { IfOk result (λ x. BodyCloses input.now at (λ i. body_before i actions.items lines.old.items last) lines.new.items x) }
    ensures there { IfOk result (λ x. x.0.0 < length lines.new.items) }
    ensures grows { OnOk result (Grows lines.old.items lines.new.items) }
    ensures known { OnOk result (AreLinesThere input.now lines.new.items) }
    ensures halts { IfErr result (Halts rules (mark CloseBrace) (from input.now at)) }
{
    let at = input.take_mark(at, Mark::CloseBrace)?;
    let first = push_actions(lines, actions, last)?;
    Ok((first, at))
}

// { node ";" }, on a path with room for so many nodes
fn read_actions(alloc: Global, input: &Input, at: usize, room: usize) -> Result<Begun, Denied>
    ensures leads { IfOk result (λ x. Going input.now room (from input.now at) x.actions.items x.room (from input.now x.at)) }
    ensures all { IfOk result (λ x. Misses rules node (from input.now x.at)) }
    ensures further { IfOk result (λ x. length (from input.now x.at) ≤ length (from input.now at)) }
    ensures known { IfOk result (λ x. AreActionsThere input.now x.actions.items) }
    ensures halts { IfErr result (Halts rules (lines_of room) (from input.now at)) }
{
    let mut actions = Vec::new(alloc);
    let mut at = at;
    let mut left = room;
    'nodes: loop {
        let next = read_node(alloc, input, at, left)?;
        let Some(found) = next else {
            return Ok(Begun {
                actions,
                at,
                room: left,
            });
        };
        let (action, after) = found;
        at = input.take_mark(after, Mark::Semicolon)?;
        add_action(&mut actions, action)?;
        left = left.saturating_sub(1);
    }
}

fn add_action(actions: &mut Vec<Action>, action: Action) -> Result<(), Memory>
    ensures { OnOk result (actions.new.items ≡ actions.old.items ++ action ∷ []) }
{
    actions.push(action)?;
    Ok(())
}

// Adds actions before a line, the last one first, and answers the first one's number.
fn push_actions(lines: &mut Lines, mut actions: Vec<Action>, last: LineId) -> Result<LineId, Memory>
    requires { last.0 < length lines.old.items }
    ensures body { IfOk result (λ id. (i : AnyInput) → body_at i lines.new.items id ≡ body_before i actions.items lines.old.items last) }
    ensures there { IfOk result (λ id. id.0 < length lines.new.items) }
    ensures grows { OnOk result (Grows lines.old.items lines.new.items) }
    ensures known { OnOk result ((i : AnyInput) → AreLinesThere i lines.old.items → AreActionsThere i actions.items → AreLinesThere i lines.new.items) }
{
    let mut next = last;
    while let Some(action) = actions.pop() {
        next = lines.push(Line::Act(action, next))?;
    }
    Ok(next)
}

// A tail, on a path with room for so many nodes.
#[cycle(bodies)]
fn read_tail(
    alloc: Global,
    input: &Input,
    at: usize,
    room: usize,
    lines: &mut Lines,
) -> Result<(LineId, usize), Denied>
    requires { AreLinesThere input.now lines.old.items }
    ensures made { IfOk result (Made (IsTail input.now room at) input.now lines.old.items lines.new.items) }
    ensures halts { IfErr result (Halts rules (within E4 (Some room) (tail (room - 1))) (from input.now at)) }
{
    let (word, after) = begin_tail(input, at, room)?;
    match word {
        TailWord::Branch => read_branch(alloc, input, after, room - 1, lines),
        TailWord::If => read_conditional(alloc, input, after, room - 1, lines),
        TailWord::Call(place) => read_call(alloc, input, after, place, lines),
        TailWord::End => push_end(lines, after),
    }
}

// The word with which a tail begins, and the place after it; a path of nodes has room for so many.
fn begin_tail(input: &Input, at: usize, room: usize) -> Result<(TailWord, usize), Denied>
    ensures found { IfOk result (λ x. TailStands x.0 (from input.now at) (from input.now x.1)) }
    ensures room { OnOk result (is_full (Some room) ≡ false) }
    ensures some { OnOk result (0 < room) }
    ensures halts { IfErr result (Halts rules (within E4 (Some room) (tail (room - 1))) (from input.now at)) }
{
    let Some(begun) = tail_word(input, at) else {
        return Err(input.refused(Rule::E1, at));
    };
    input.check_room(at, room)?;
    Ok(begun)
}

fn push_end(lines: &mut Lines, at: usize) -> Result<(LineId, usize), Denied>
    ensures ends { IfOk result (IsEndLine at lines.new.items) }
    ensures there { IfOk result (λ x. x.0.0 < length lines.new.items) }
    ensures grows { OnOk result (Grows lines.old.items lines.new.items) }
    ensures known { OnOk result ((i : AnyInput) → AreLinesThere i lines.old.items → AreLinesThere i lines.new.items) }
    ensures memory { IfErr result (λ d. d ≡ Denied.Memory) }
{
    let end = lines.push(Line::End)?;
    Ok((end, at))
}

// NAME NAME "{" NAME body { NAME body } "}"
#[cycle(bodies)]
fn read_branch(
    alloc: Global,
    input: &Input,
    at: usize,
    room: usize,
    lines: &mut Lines,
) -> Result<(LineId, usize), Denied>
    requires { AreLinesThere input.now lines.old.items }
    ensures made { IfOk result (Made (IsBranch input.now room at) input.now lines.old.items lines.new.items) }
    ensures halts { IfErr result (Halts rules (branch room) (from input.now at)) }
{
    let (names, mut at) = open_branch(input, at, room)?;
    let mut arms = List::new(alloc);
    'arms: loop {
        let (label, after) = input.take_name(at)?;
        let (body, end) = read_body(alloc, input, after, room, lines)?;
        arms.push(Arm { label, body })?;
        let Some(_) = input.name_at(end) else {
            return close_branch(input, end, names, arms, lines);
        };
        at = end;
    }
}

// NAME NAME "{"
fn open_branch(input: &Input, at: usize, room: usize) -> Result<(Two, usize), Denied>
    ensures opens { IfOk result (λ x. BranchOpens (from input.now at) (two_of input.now x.0) (from input.now x.1)) }
    ensures known { IfOk result (λ x. AreTwoThere input.now x.0) }
    ensures halts { IfErr result (Halts rules (branch room) (from input.now at)) }
{
    let (names, at) = read_two_names(input, at)?;
    let at = input.take_mark(at, Mark::OpenBrace)?;
    Ok((names, at))
}

// The brace after the arms of a branch.
fn close_branch(
    input: &Input,
    at: usize,
    names: Two,
    arms: List<Arm>,
    lines: &mut Lines,
) -> Result<(LineId, usize), Denied>
    requires arms { All (λ a. a.body.0 < length lines.old.items) arms }
    requires lines { AreLinesThere input.now lines.old.items }
    requires names { AreTwoThere input.now names }
    requires labels { AreLabelsThere input.now arms }
    ensures closes { IfOk result (λ x. BodyCloses input.now at (λ i. offered i names arms lines.old.items) lines.new.items x) }
    ensures there { IfOk result (λ x. x.0.0 < length lines.new.items) }
    ensures grows { OnOk result (Grows lines.old.items lines.new.items) }
    ensures known { OnOk result (AreLinesThere input.now lines.new.items) }
    ensures halts { IfErr result (Halts rules (mark CloseBrace) (from input.now at)) }
{
    let at = input.take_mark(at, Mark::CloseBrace)?;
    let branch = lines.push(Line::Branch(names.first, names.second, arms))?;
    Ok((branch, at))
}

// expr body "else" body
#[cycle(bodies)]
fn read_conditional(
    alloc: Global,
    input: &Input,
    at: usize,
    room: usize,
    lines: &mut Lines,
) -> Result<(LineId, usize), Denied>
    requires { AreLinesThere input.now lines.old.items }
    ensures made { IfOk result (Made (IsConditional input.now room at) input.now lines.old.items lines.new.items) }
    ensures halts { IfErr result (Halts rules (conditional room) (from input.now at)) }
{
    let (expr, at) = read_expression(alloc, input, at)?;
    let (first, at) = read_body(alloc, input, at, room, lines)?;
    let at = input.take_word(at, b"else")?;
    let (second, at) = read_body(alloc, input, at, room, lines)?;
    let test = lines.push(Line::If(expr, first, second))?;
    Ok((test, at))
}

// NAME NAME "(" [ names ] ")"
fn read_call(
    alloc: Global,
    input: &Input,
    at: usize,
    place: Place,
    lines: &mut Lines,
) -> Result<(LineId, usize), Denied>
    requires { AreLinesThere input.now lines.old.items }
    ensures made { IfOk result (Made (IsCall input.now place at) input.now lines.old.items lines.new.items) }
    ensures halts { IfErr result (Halts rules signature (from input.now at)) }
{
    let (signature, at) = read_signature(alloc, input, at)?;
    let call = lines.push(Line::Call(place, signature))?;
    Ok((call, at))
}
