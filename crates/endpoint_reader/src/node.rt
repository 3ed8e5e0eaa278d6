//! Nodes of a body.

ghost use Rattle.std.specs.Prelude.{◌≡◌, IfOk, IfErr, IfSome, IfNone, OnErr, Some, true, false};
ghost use Rattle.chor_base.specs.declared.rule.Rule.TheVariants.{E4};
ghost use Rattle.grammar.specs.Classes.{a_word, is_of};
ghost use Rattle.grammar.specs.Grammars.{within};
ghost use Rattle.grammar.specs.Readers.{Halts, Tells, Begins, Misses, HasOne};
ghost use Rattle.endpoint_grammar.specs.Grammar.{node, join as join_part, send, three_names, set, host, expr as an_expr};
ghost use Rattle.endpoint_grammar.specs.Values.{rules, deed};
ghost use Rattle.endpoint_reader.specs.declared.input.Input.{Input as AnyInput};
ghost use Rattle.endpoint_reader.specs.declared.node.NodeWord.{NodeWord as AnyWord};
ghost use Rattle.endpoint_reader.specs.declared.node.NodeWord.TheVariants.{Exchange as ExchangeWord};
ghost use Rattle.endpoint_reader.specs.declared.node.Exchange.{Exchange as AnyExchange};
ghost use Rattle.endpoint_reader.specs.Tokens.{from, symbol_of, named};
ghost use Rattle.endpoint_reader.specs.Known.{IsActionThere, AreThreeThere};
ghost use Rattle.endpoint_reader.specs.Nodes.{IsNode, deed_of, exchange_word, first_word, rest_of, exchanged, deed_by};

use crate::expression::read_expression;
use crate::input::{Input, Named};
use crate::lists::{Three, read_role_of_channel, read_three_names, read_two_names};
use chor_base::{Denied, Expr};
use chor_lexer::{Kind, Mark};
use std::alloc::Global;

/// What a process does before it goes on in one way.
#[derive(Drop)]
pub enum Action {
    Join(Named, Named, Named),
    Send(Named, Named, Expr),
    Recv(Named, Named, Named),
    Pick(Named, Named, Named),
    Give(Named, Named, Named),
    Gain(Named, Named, Named),
    Set(Named, Expr),
    Show(Expr),
    Host(Named, Named, Expr, Expr),
}

/// The word with which a node begins.
#[derive(Clone, Copy)]
pub enum NodeWord {
    Join,
    Send,
    Exchange(Exchange),
    Set,
    Show,
    Host,
}

/// The word with which a node of three names begins.
#[derive(Clone, Copy)]
pub enum Exchange {
    Recv,
    Pick,
    Give,
    Gain,
}

// A node, if one begins here, and the place after it; a path of nodes has room for so many more.
pub fn read_node(
    alloc: Global,
    input: &Input,
    at: usize,
    room: usize,
) -> Result<Option<(Action, usize)>, Denied>
    ensures some { IfOk result (λ found. IfSome found (IsNode input.now room at)) }
    ensures begins { IfOk result (λ found. IfSome found (λ x. Begins rules node (from input.now at))) }
    ensures none { IfOk result (λ found. IfNone found (Misses rules node (from input.now at))) }
    ensures begun { OnErr result (Begins rules node (from input.now at)) }
    ensures known { IfOk result (λ found. IfSome found (λ x. IsActionThere input.now x.0)) }
    ensures halts { IfErr result (Halts rules (within E4 (Some room) node) (from input.now at)) }
{
    let Some(begun) = node_word(input, at) else {
        return Ok(None);
    };
    let (word, after) = begun;
    input.check_room(at, room)?;
    let action = read_action(alloc, input, word, after)?;
    Ok(Some(action))
}

// The word with which a node begins that stands here, and the place after it.
fn node_word(input: &Input, at: usize) -> Option<(NodeWord, usize)>
    ensures found { IfSome result (λ x. HasOne (a_word (first_word x.0)) (from input.now at) (from input.now x.1)) }
    ensures none { IfNone result (Misses rules node (from input.now at)) }
{
    let token = input.token_at(at)?;
    let word = word_of(input, token.kind)?;
    Some((word, at + 1))
}

// The word with which a node begins that a token of this kind is.
fn word_of(input: &Input, kind: Kind) -> Option<NodeWord>
    ensures found { IfSome result (λ w. is_of (a_word (first_word w)) (symbol_of input.now kind) ≡ true) }
    ensures none { IfNone result ((w : AnyWord) → is_of (a_word (first_word w)) (symbol_of input.now kind) ≡ false) }
{
    if input.is_word(kind, b"join") {
        return Some(NodeWord::Join);
    }
    if input.is_word(kind, b"send") {
        return Some(NodeWord::Send);
    }
    if let Some(exchange) = exchange_of(input, kind) {
        return Some(NodeWord::Exchange(exchange));
    }
    if input.is_word(kind, b"set") {
        return Some(NodeWord::Set);
    }
    if input.is_word(kind, b"show") {
        return Some(NodeWord::Show);
    }
    if input.is_word(kind, b"host") {
        return Some(NodeWord::Host);
    }
    None
}

// The word with which a node of three names begins that a token of this kind is.
fn exchange_of(input: &Input, kind: Kind) -> Option<Exchange>
    ensures found { IfSome result (λ w. is_of (a_word (exchange_word w)) (symbol_of input.now kind) ≡ true) }
    ensures none { IfNone result ((w : AnyExchange) → is_of (a_word (exchange_word w)) (symbol_of input.now kind) ≡ false) }
{
    if input.is_word(kind, b"recv") {
        return Some(Exchange::Recv);
    }
    if input.is_word(kind, b"pick") {
        return Some(Exchange::Pick);
    }
    if input.is_word(kind, b"give") {
        return Some(Exchange::Give);
    }
    if input.is_word(kind, b"gain") {
        return Some(Exchange::Gain);
    }
    None
}

// A node after its first word.
fn read_action(
    alloc: Global,
    input: &Input,
    word: NodeWord,
    at: usize,
) -> Result<(Action, usize), Denied>
    ensures reads { IfOk result (λ x. Tells rules (rest_of word) (deed_by word) (from input.now at) (deed_of input.now x.0) (from input.now x.1)) }
    ensures known { IfOk result (λ x. IsActionThere input.now x.0) }
    ensures halts { IfErr result (Halts rules (rest_of word) (from input.now at)) }
{
    match word {
        NodeWord::Join => read_join(input, at),
        NodeWord::Send => read_send(alloc, input, at),
        NodeWord::Exchange(exchange) => read_exchange(input, exchange, at),
        NodeWord::Set => read_set(alloc, input, at),
        NodeWord::Show => read_show(alloc, input, at),
        NodeWord::Host => read_host(alloc, input, at),
    }
}

// NAME NAME NAME
fn read_exchange(input: &Input, word: Exchange, at: usize) -> Result<(Action, usize), Denied>
    ensures reads { IfOk result (λ x. Tells rules three_names (deed_by (ExchangeWord word)) (from input.now at) (deed_of input.now x.0) (from input.now x.1)) }
    ensures known { IfOk result (λ x. IsActionThere input.now x.0) }
    ensures halts { IfErr result (Halts rules three_names (from input.now at)) }
{
    let (names, after) = read_three_names(input, at)?;
    Ok((action_of(word, names), after))
}

// The node that has these names after its first word.
fn action_of(word: Exchange, names: Three) -> Action
    ensures deed { (i : AnyInput) → deed_of i result ≡ exchanged word (named i names.first) (named i names.second) (named i names.third) }
    ensures known { (i : AnyInput) → AreThreeThere i names → IsActionThere i result }
{
    match word {
        Exchange::Recv => Action::Recv(names.first, names.second, names.third),
        Exchange::Pick => Action::Pick(names.first, names.second, names.third),
        Exchange::Give => Action::Give(names.first, names.second, names.third),
        Exchange::Gain => Action::Gain(names.first, names.second, names.third),
    }
}

// NAME "[" NAME "]" "(" NAME ")"
fn read_join(input: &Input, at: usize) -> Result<(Action, usize), Denied>
    ensures reads { IfOk result (λ x. Tells rules join_part (deed_by NodeWord.Join) (from input.now at) (deed_of input.now x.0) (from input.now x.1)) }
    ensures known { IfOk result (λ x. IsActionThere input.now x.0) }
    ensures halts { IfErr result (Halts rules join_part (from input.now at)) }
{
    let (place, at) = read_role_of_channel(input, at)?;
    let at = input.take_mark(at, Mark::OpenParen)?;
    let (session, at) = input.take_name(at)?;
    let at = input.take_mark(at, Mark::CloseParen)?;
    Ok((Action::Join(place.first, place.second, session), at))
}

// NAME NAME expr
fn read_send(alloc: Global, input: &Input, at: usize) -> Result<(Action, usize), Denied>
    ensures reads { IfOk result (λ x. Tells rules send (deed_by NodeWord.Send) (from input.now at) (deed_of input.now x.0) (from input.now x.1)) }
    ensures known { IfOk result (λ x. IsActionThere input.now x.0) }
    ensures halts { IfErr result (Halts rules send (from input.now at)) }
{
    let (names, at) = read_two_names(input, at)?;
    let (expr, at) = read_expression(alloc, input, at)?;
    Ok((Action::Send(names.first, names.second, expr), at))
}

// NAME expr
fn read_set(alloc: Global, input: &Input, at: usize) -> Result<(Action, usize), Denied>
    ensures reads { IfOk result (λ x. Tells rules set (deed_by NodeWord.Set) (from input.now at) (deed_of input.now x.0) (from input.now x.1)) }
    ensures known { IfOk result (λ x. IsActionThere input.now x.0) }
    ensures halts { IfErr result (Halts rules set (from input.now at)) }
{
    let (variable, at) = input.take_name(at)?;
    let (expr, at) = read_expression(alloc, input, at)?;
    Ok((Action::Set(variable, expr), at))
}

// expr
fn read_show(alloc: Global, input: &Input, at: usize) -> Result<(Action, usize), Denied>
    ensures reads { IfOk result (λ x. Tells rules an_expr (deed_by NodeWord.Show) (from input.now at) (deed_of input.now x.0) (from input.now x.1)) }
    ensures known { IfOk result (λ x. IsActionThere input.now x.0) }
    ensures halts { IfErr result (Halts rules an_expr (from input.now at)) }
{
    let (expr, at) = read_expression(alloc, input, at)?;
    Ok((Action::Show(expr), at))
}

// NAME NAME "(" expr "," expr ")"
fn read_host(alloc: Global, input: &Input, at: usize) -> Result<(Action, usize), Denied>
    ensures reads { IfOk result (λ x. Tells rules host (deed_by NodeWord.Host) (from input.now at) (deed_of input.now x.0) (from input.now x.1)) }
    ensures known { IfOk result (λ x. IsActionThere input.now x.0) }
    ensures halts { IfErr result (Halts rules host (from input.now at)) }
{
    let (names, at) = read_two_names(input, at)?;
    let at = input.take_mark(at, Mark::OpenParen)?;
    let (left, at) = read_expression(alloc, input, at)?;
    let at = input.take_mark(at, Mark::Comma)?;
    let (right, at) = read_expression(alloc, input, at)?;
    let at = input.take_mark(at, Mark::CloseParen)?;
    Ok((Action::Host(names.first, names.second, left, right), at))
}
