//! Expressions, read from tokens.

ghost use Rattle.std.specs.Prelude.{◌≡◌, ◌+◌, ◌<◌, ◌^◌, length, drop, IfOk, IfErr, MatchOption, slice_get, Some, None};
ghost use Rattle.chor_base.specs.Expr.{term_of, Unary, Binary};
ghost use Rattle.chor_lexer.specs.Turns.{front, tail, operand_of, word_operand, unary_of, binary_of, operator_at, is_open, is_close};
ghost use Rattle.chor_lexer.specs.Reading.{IsRead, IsRefusal, HasPlace, IsRefusalAt, IsFound, Misses, Reads, StopsAt};

use crate::canonical::strength;
use crate::keyword::is_keyword;
use crate::level::Level;
use crate::lex::refused;
use crate::mark::Mark;
use crate::token::{Kind, Token, Tokens};
use chor_base::{BinOp, Denied, Expr, Memory, NameId, Names, Rule, UnOp, Value};
use std::alloc::Global;

/// The most tokens that an expression may have.
const LONGEST: usize = 255;

// Why an operand isn't read.
pub enum Stop<'a> {
    Memory,
    // No expression has the first of these tokens there.
    Wrong(&'a [Token]),
}

impl From<Memory> for Stop<'_> {
    ghost use Rattle.std.specs.Prelude.{◌≡◌};
    ghost use Rattle.chor_lexer.specs.declared.expression.Stop.TheVariants.{Memory};

    ghost from_gives = { λ _ e. e ≡ Memory };

    fn from(_error: Memory) -> Self {
        Stop::Memory
    }
}

/// The expression that begins with the token of number `at`, and the number of the token after it.
/// The table is that in which the words of the tokens have their numbers.
///
/// It takes as many tokens as some expression begins with. It is refused by P2 at the 256th of
/// them, where there are more than 255, and else by P1 at the token after them, where they are no
/// expression yet. Parentheses count as tokens.
pub fn read_expr(
    alloc: Global,
    tokens: &Tokens,
    names: &Names,
    at: u32,
) -> Result<(Expr, u32), Denied>
    requires { at < length tokens.now.items }
    ensures found { IfOk result (λ x. IsRead names.now (drop at tokens.now.items) (term_of x.0) at x.1) }
    ensures denied { IfErr result (IsRefusal names.now (drop at tokens.now.items)) }
{
    let (_, rest) = tokens.items.as_slice().split_at(at as usize);
    let (window, _) = rest.split_at(rest.len().min(LONGEST + 1));
    match read_front(alloc, window, names) {
        Ok((expr, after)) => Ok((expr, at + (window.len() - after.len()) as u32)),
        Err(stop) => Err(refusal(rest, stop)),
    }
}

// The refusal of tokens of which the first 256 stop so.
fn refusal(tokens: &[Token], stop: Stop<'_>) -> Denied
    requires { HasPlace tokens.now stop }
    ensures { IsRefusalAt tokens.now stop.entry result }
{
    match stop {
        Stop::Memory => Denied::Memory,
        Stop::Wrong(after) => match after {
            [token, ..] => refused(Rule::P1, token.place),
            [] => refused(Rule::P2, tokens[LONGEST].place),
        },
    }
}

// The expression with which the tokens begin, and the tokens after it, of which there is one.
fn read_front<'a>(
    alloc: Global,
    tokens: &'a [Token],
    names: &Names,
) -> Result<(Expr, &'a [Token]), Stop<'a>>
    ensures ok { IfOk result (λ x. IsFound names.now tokens.now (term_of x.0) x.1.now) }
    ensures err { IfErr result (λ e. Misses names.now tokens.now e) }
{
    let (expr, after) = read_level(alloc, tokens, names, Level::Or)?;
    if after.is_empty() {
        return Err(Stop::Wrong(after));
    }
    Ok((expr, after))
}

// An operand of a level, and the tokens after it.
#[cycle(reading)]
fn read_level<'a>(
    alloc: Global,
    tokens: &'a [Token],
    names: &Names,
    level: Level,
) -> Result<(Expr, &'a [Token]), Stop<'a>>
    ensures ok { IfOk result (λ x. Reads names.now level tokens.now (term_of x.0) x.1.now) }
    ensures err { IfErr result (λ e. StopsAt names.now level tokens.now e) }
{
    let Some(operand) = level.operand() else {
        return read_unary(alloc, tokens, names);
    };
    let (mut left, mut rest) = read_level(alloc, tokens, names, operand)?;
    while let Some(op) = operator_at(level, front(rest)) {
        let (right, after) = read_level(alloc, rest_of(rest), names, operand)?;
        left = join(alloc, op, left, right)?;
        rest = after;
        if !level.repeats() {
            return Ok((left, rest));
        }
    }
    Ok((left, rest))
}

// An operand without an operator of two operands outside parentheses, and the tokens after it.
#[cycle(reading)]
fn read_unary<'a>(
    alloc: Global,
    tokens: &'a [Token],
    names: &Names,
) -> Result<(Expr, &'a [Token]), Stop<'a>>
    ensures ok { IfOk result (λ x. Reads names.now Level.Un tokens.now (term_of x.0) x.1.now) }
    ensures err { IfErr result (λ e. StopsAt names.now Level.Un tokens.now e) }
{
    let kind = front(tokens);
    let rest = rest_of(tokens);
    if let Some(expr) = operand_of(kind, names) {
        return Ok((expr, rest));
    }
    if let Some(op) = unary_of(kind) {
        let (operand, after) = read_unary(alloc, rest, names)?;
        return Ok((apply(alloc, op, operand)?, after));
    }
    if !is_open(kind) {
        return Err(Stop::Wrong(tokens));
    }
    let (expr, after) = read_level(alloc, rest, names, Level::Or)?;
    if !is_close(front(after)) {
        return Err(Stop::Wrong(after));
    }
    Ok((expr, rest_of(after)))
}

// An operator with both operands.
fn join(alloc: Global, op: BinOp, left: Expr, right: Expr) -> Result<Expr, Memory>
    ensures { IfOk result (λ e. term_of e ≡ Binary op (term_of left) (term_of right)) }
{
    let left = Box::new(alloc, left)?;
    Ok(Expr::Bin(op, left, Box::new(alloc, right)?))
}

// An operator with its operand.
fn apply(alloc: Global, op: UnOp, operand: Expr) -> Result<Expr, Memory>
    ensures { IfOk result (λ e. term_of e ≡ Unary op (term_of operand)) }
{
    Ok(Expr::Un(op, Box::new(alloc, operand)?))
}

// ---- tokens

// The kind of the first token, or that of the end where there is none.
fn front(tokens: &[Token]) -> Kind
    ensures { result ≡ front tokens.now }
{
    match tokens {
        [] => Kind::Last,
        [token, ..] => token.kind,
    }
}

// The tokens after the first.
fn rest_of(tokens: &[Token]) -> &[Token]
    ensures { result.now ≡ tail tokens.now }
{
    match tokens {
        [] => tokens,
        [_, rest @ ..] => rest,
    }
}

// The operand that a token alone is.
fn operand_of(kind: Kind, names: &Names) -> Option<Expr>
    ensures { MatchOption result (operand_of names.now kind ≡ None) (λ e. operand_of names.now kind ≡ Some (term_of e)) }
{
    match kind {
        Kind::Word(name) => word_operand(name, word_of(names, name)?),
        Kind::Number(number) => Some(Expr::Lit(Value::Int(number))),
        Kind::Text(text) => Some(Expr::Lit(Value::Text(text))),
        Kind::Mark(_) | Kind::Last => None,
    }
}

// The operand that a word is.
fn word_operand(name: NameId, word: &[u8]) -> Option<Expr>
    ensures { MatchOption result (word_operand name word.now ≡ None) (λ e. word_operand name word.now ≡ Some (term_of e)) }
{
    if word == b"true".as_slice() {
        Some(Expr::Lit(Value::Bool(true)))
    } else if word == b"false".as_slice() {
        Some(Expr::Lit(Value::Bool(false)))
    } else if is_keyword(word) {
        None
    } else {
        Some(Expr::Var(name))
    }
}

// The bytes of a name that is in the table.
fn word_of(names: &Names, name: NameId) -> Option<&[u8]>
    ensures { MatchOption result (slice_get names.now name.0 ≡ None) (λ w. slice_get names.now name.0 ≡ Some w.now) }
{
    if (name.0 as usize) < names.len() {
        Some(names.at(name))
    } else {
        None
    }
}

fn unary_of(kind: Kind) -> Option<UnOp>
    ensures { result ≡ unary_of kind }
{
    match kind {
        Kind::Mark(Mark::Minus) => Some(UnOp::Neg),
        Kind::Mark(Mark::Not) => Some(UnOp::Not),
        _ => None,
    }
}

fn binary_of(kind: Kind) -> Option<BinOp>
    ensures { result ≡ binary_of kind }
{
    match kind {
        Kind::Mark(Mark::Plus) => Some(BinOp::Add),
        Kind::Mark(Mark::Minus) => Some(BinOp::Sub),
        Kind::Mark(Mark::Star) => Some(BinOp::Mul),
        Kind::Mark(Mark::Slash) => Some(BinOp::Div),
        Kind::Mark(Mark::Equal) => Some(BinOp::Eq),
        Kind::Mark(Mark::NotEqual) => Some(BinOp::Ne),
        Kind::Mark(Mark::Less) => Some(BinOp::Lt),
        Kind::Mark(Mark::LessEqual) => Some(BinOp::Le),
        Kind::Mark(Mark::And) => Some(BinOp::And),
        Kind::Mark(Mark::Or) => Some(BinOp::Or),
        _ => None,
    }
}

// The operator of this level that a token is.
fn operator_at(level: Level, kind: Kind) -> Option<BinOp>
    ensures { result ≡ operator_at level kind }
{
    let op = binary_of(kind)?;
    if strength(op) == level.strength() {
        Some(op)
    } else {
        None
    }
}

fn is_open(kind: Kind) -> bool
    ensures { result ≡ is_open kind }
{
    match kind {
        Kind::Mark(Mark::OpenParen) => true,
        _ => false,
    }
}

fn is_close(kind: Kind) -> bool
    ensures { result ≡ is_close kind }
{
    match kind {
        Kind::Mark(Mark::CloseParen) => true,
        _ => false,
    }
}
