//! Blocks of statements, in a table of nodes.

ghost use Rattle.std.specs.Prelude.{◌≡◌, ◌-◌, ◌<◌, ◌≤◌, ◌++◌, ◌∷◌, [], List, length, IfOk, IfErr, IfSome, IfNone, OnOk};
ghost use Rattle.chor_base.specs.declared.rule.Rule.TheVariants.{P3};
ghost use Rattle.source_grammar.specs.Symbols.{Nothing, Head, Halts, RefusesFirst};
ghost use Rattle.chor_tree.specs.declared.tree.Node.{Node};
ghost use Rattle.chor_tree.specs.Source.{block_in, blocks_of};
ghost use Rattle.source_grammar.specs.Grammar.{MarkIs, StandsAt};
ghost use Rattle.source_grammar.specs.Parts.{OrComma};
ghost use Rattle.source_grammar.specs.Statements.{StatementFirst};
ghost use Rattle.source_grammar.specs.Blocks.{BlockPart, LinesPart, LastPart, CallTail, IfTail, AllNamesPart, PassedSessionsPart, PassedSessionsMore, PassedPart, PassedMore};
ghost use Rattle.source_reader.specs.Reading.{names_of, tokens_from, with_lines, ReadsTo, LeadsTo, Made};
ghost use Rattle.source_grammar.specs.Growing.{Grows, Adds};

use crate::expression::read_expression;
use crate::input::Input;
use crate::statement::{Statement, form_of, read_statement};
use chor_base::{Denied, List, Memory, Place, Rule};
use chor_lexer::Mark;
use chor_tree::{Form, Named, Node, NodeId, Tree};
use std::alloc::Global;

/// How many blocks may still be opened, and how many statements may still stand on the path.
#[derive(Clone, Copy, PartialEq, Eq)]
pub struct Room {
    pub blocks: usize,
    pub statements: usize,
}

// A statement and where it begins.
#[derive(Drop)]
struct Line {
    place: Place,
    statement: Statement,
}

// Statements, and how many more may stand after them.
#[derive(Drop)]
struct Lines {
    items: Vec<Line>,
    left: usize,
}

/// `block = "{" { stmt ";" } tail "}"`, where there is so much room.
///
/// Its nodes go into the tree, and its first one's number is answered.
#[cycle(blocks)]
pub fn read_block(
    alloc: Global,
    input: &Input,
    at: usize,
    tree: &mut Tree,
    room: Room,
) -> Result<(NodeId, usize), Denied>
    ensures reads { IfOk result (λ x. ReadsTo (BlockPart room.blocks room.statements) Nothing input.now at (block_in (blocks_of tree.new.nodes) x.0) x.1) }
    ensures halts { IfErr result (Halts (BlockPart room.blocks room.statements) Nothing (names_of input.now) (tokens_from input.now at)) }
    ensures there { IfOk result (λ x. x.0.0 < length tree.new.nodes) }
    ensures grows { OnOk result (Grows tree.old.nodes tree.new.nodes) }
    ensures adds { IfOk result (λ x. Adds tree.old.nodes tree.new.nodes (x.0 ∷ [])) }
{
    let at = open_block(input, at, room)?;
    let inside = Room {
        blocks: room.blocks - 1,
        statements: room.statements,
    };
    let (lines, at) = read_lines(alloc, input, at, inside)?;
    let left = Room {
        blocks: inside.blocks,
        statements: lines.left,
    };
    let (tail, at) = read_tail(alloc, input, at, tree, left)?;
    let at = input.take_mark(at, Mark::CloseBrace)?;
    let first = push_lines(tree, lines.items, tail)?;
    Ok((first, at))
}

// The place after the brace that opens a block.
fn open_block(input: &Input, at: usize, room: Room) -> Result<usize, Denied>
    ensures after { IfOk result (λ after. MarkIs Mark.OpenBrace (tokens_from input.now at) (tokens_from input.now after)) }
    ensures room { OnOk result (0 < room.blocks) }
    ensures halts { IfErr result (Halts (BlockPart room.blocks room.statements) Nothing (names_of input.now) (tokens_from input.now at)) }
{
    let Some(after) = input.after_mark(at, Mark::OpenBrace) else {
        return Err(input.refused(Rule::P1, at));
    };
    if room.blocks == 0 {
        return Err(input.refused(Rule::P2, at));
    }
    Ok(after)
}

// { stmt ";" }
fn read_lines(alloc: Global, input: &Input, at: usize, room: Room) -> Result<(Lines, usize), Denied>
    ensures leads { IfOk result (λ x. LeadsTo (LinesPart room.blocks room.statements) input.now at (LinesPart room.blocks x.0.left) x.1 (with_lines x.0.items.items)) }
    ensures halts { IfErr result (Halts (LinesPart room.blocks room.statements) Nothing (names_of input.now) (tokens_from input.now at)) }
    ensures all { IfOk result (λ x. Head StatementFirst (names_of input.now) (tokens_from input.now x.1) → ⊥) }
    ensures shorter { IfOk result (λ x. length (tokens_from input.now x.1) ≤ length (tokens_from input.now at)) }
{
    let mut lines = Vec::new(alloc);
    let mut left = room.statements;
    let mut at = at;
    while let Some(place) = statement_at(input, at) {
        room_for_statement(input, at, left)?;
        let (statement, after) = read_statement(alloc, input, at)?;
        push_line(&mut lines, Line { place, statement })?;
        at = input.take_mark(after, Mark::Semicolon)?;
        left -= 1;
    }
    Ok((Lines { items: lines, left }, at))
}

fn push_line(lines: &mut Vec<Line>, line: Line) -> Result<(), Memory>
    ensures { OnOk result (lines.new.items ≡ lines.old.items ++ line ∷ []) }
{
    lines.push(line)?;
    Ok(())
}

// Where the statement stands in the file that begins here, if one does.
fn statement_at(input: &Input, at: usize) -> Option<Place>
    ensures at { IfSome result (λ place. StandsAt place (tokens_from input.now at)) }
    ensures first { IfSome result (λ place. Head StatementFirst (names_of input.now) (tokens_from input.now at)) }
    ensures none { IfNone result (Head StatementFirst (names_of input.now) (tokens_from input.now at) → ⊥) }
{
    if let Some((name, _)) = input.name_at(at) {
        return Some(name.place);
    }
    let _after = input.after_word(at, b"start")?;
    Some(input.place_of(at))
}

// A statement or tail may stand here, where so many may.
fn room_for_statement(input: &Input, at: usize, statements: usize) -> Result<(), Denied>
    ensures room { OnOk result (0 < statements) }
    ensures full { IfErr result (λ d. (statements ≡ 0) × RefusesFirst P3 (tokens_from input.now at) d) }
{
    if statements == 0 {
        return Err(input.refused(Rule::P3, at));
    }
    Ok(())
}

// Adds statements before a node, the last one first, and answers the first one's number.
fn push_lines(tree: &mut Tree, mut lines: Vec<Line>, tail: NodeId) -> Result<NodeId, Memory>
    requires { tail.0 < length tree.old.nodes }
    ensures block { IfOk result (λ id. block_in (blocks_of tree.new.nodes) id ≡ with_lines lines.items (block_in (blocks_of tree.old.nodes) tail)) }
    ensures there { IfOk result (λ id. id.0 < length tree.new.nodes) }
    ensures grows { OnOk result (Grows tree.old.nodes tree.new.nodes) }
    ensures adds { IfOk result (λ id. (first : List Node) → Adds first tree.old.nodes (tail ∷ []) → Adds first tree.new.nodes (id ∷ [])) }
{
    let mut next = tail;
    while let Some(line) = lines.pop() {
        let form = form_of(line.statement, next);
        next = tree.push(Node {
            place: line.place,
            form,
        })?;
    }
    Ok(next)
}

// tail = "end" | "call" .. | "if" ..
#[cycle(blocks)]
fn read_tail(
    alloc: Global,
    input: &Input,
    at: usize,
    tree: &mut Tree,
    room: Room,
) -> Result<(NodeId, usize), Denied>
    ensures made { IfOk result (Made (LastPart room.blocks room.statements) input.now at tree.old.nodes tree.new.nodes) }
    ensures halts { IfErr result (Halts (LastPart room.blocks room.statements) Nothing (names_of input.now) (tokens_from input.now at)) }
{
    let place = input.place_of(at);
    if let Some(after) = input.after_word(at, b"end") {
        room_for_statement(input, at, room.statements)?;
        let end = tree.push(Node {
            place,
            form: Form::End,
        })?;
        return Ok((end, after));
    }
    if let Some(after) = input.after_word(at, b"call") {
        room_for_statement(input, at, room.statements)?;
        return read_call(alloc, input, after, tree, place);
    }
    let Some(after) = input.after_word(at, b"if") else {
        return Err(input.refused(Rule::P1, at));
    };
    room_for_statement(input, at, room.statements)?;
    let left = Room {
        blocks: room.blocks,
        statements: room.statements - 1,
    };
    read_if(alloc, input, after, tree, left, place)
}

// "call" NAME "(" [ names [ ";" names ] ] ")", after its keyword
fn read_call(
    alloc: Global,
    input: &Input,
    at: usize,
    tree: &mut Tree,
    place: Place,
) -> Result<(NodeId, usize), Denied>
    ensures made { IfOk result (Made (CallTail place) input.now at tree.old.nodes tree.new.nodes) }
    ensures halts { IfErr result (Halts (CallTail place) Nothing (names_of input.now) (tokens_from input.now at)) }
{
    let (name, at) = input.take_name(at)?;
    let at = input.take_mark(at, Mark::OpenParen)?;
    let (passed, at) = read_passed(alloc, input, at)?;
    let at = input.take_mark(at, Mark::CloseParen)?;
    let form = Form::Call {
        name,
        processes: passed.processes,
        sessions: passed.sessions,
    };
    let call = tree.push(Node { place, form })?;
    Ok((call, at))
}

// What a call passes.
#[derive(Drop)]
struct Passed {
    processes: List<Named>,
    sessions: List<Named>,
}

// [ names [ ";" names ] ]
fn read_passed(alloc: Global, input: &Input, at: usize) -> Result<(Passed, usize), Denied>
    ensures reads { IfOk result (λ x. ReadsTo PassedPart PassedMore input.now at (x.0.processes, x.0.sessions) x.1) }
    ensures halts { IfErr result (Halts PassedPart PassedMore (names_of input.now) (tokens_from input.now at)) }
{
    if !input.has_name(at) {
        let passed = Passed {
            processes: List::new(alloc),
            sessions: List::new(alloc),
        };
        return Ok((passed, at));
    }
    let (processes, at) = read_all_names(alloc, input, at)?;
    let (sessions, at) = read_passed_sessions(alloc, input, at)?;
    let passed = Passed {
        processes,
        sessions,
    };
    Ok((passed, at))
}

// [ ";" names ]
fn read_passed_sessions(
    alloc: Global,
    input: &Input,
    at: usize,
) -> Result<(List<Named>, usize), Denied>
    ensures reads { IfOk result (λ x. ReadsTo PassedSessionsPart PassedSessionsMore input.now at x.0 x.1) }
    ensures halts { IfErr result (Halts PassedSessionsPart PassedSessionsMore (names_of input.now) (tokens_from input.now at)) }
{
    match input.after_mark(at, Mark::Semicolon) {
        Some(after) => read_all_names(alloc, input, after),
        None => Ok((List::new(alloc), at)),
    }
}

// NAME { "," NAME }, without a limit
fn read_all_names(alloc: Global, input: &Input, at: usize) -> Result<(List<Named>, usize), Denied>
    ensures reads { IfOk result (λ x. ReadsTo AllNamesPart (OrComma Nothing) input.now at x.0 x.1) }
    ensures halts { IfErr result (Halts AllNamesPart (OrComma Nothing) (names_of input.now) (tokens_from input.now at)) }
{
    let (first, mut at) = input.take_name(at)?;
    let mut names = List::new(alloc);
    names.push(first)?;
    while let Some(after) = input.after_mark(at, Mark::Comma) {
        let (name, more) = input.take_name(after)?;
        names.push(name)?;
        at = more;
    }
    Ok((names, at))
}

// "if" NAME "." expr block "else" block, after its keyword
#[cycle(blocks)]
fn read_if(
    alloc: Global,
    input: &Input,
    at: usize,
    tree: &mut Tree,
    room: Room,
    place: Place,
) -> Result<(NodeId, usize), Denied>
    ensures made { IfOk result (Made (IfTail room.blocks room.statements place) input.now at tree.old.nodes tree.new.nodes) }
    ensures halts { IfErr result (Halts (IfTail room.blocks room.statements place) Nothing (names_of input.now) (tokens_from input.now at)) }
{
    let (process, at) = input.take_name(at)?;
    let at = input.take_mark(at, Mark::Dot)?;
    let (expr, at) = read_expression(alloc, input, at)?;
    let (first, at) = read_block(alloc, input, at, tree, room)?;
    let at = input.take_word(at, b"else")?;
    let (second, at) = read_block(alloc, input, at, tree, room)?;
    let form = Form::If {
        process,
        expr,
        first,
        second,
    };
    let branch = tree.push(Node { place, form })?;
    Ok((branch, at))
}
