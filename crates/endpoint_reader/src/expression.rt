//! Expressions.

ghost use Rattle.std.specs.Prelude.{◌≡◌, ◌<◌, length, IfOk, IfErr, IfSome, IfNone, Some, true, false};
ghost use Rattle.chor_base.specs.Expr.{term_of, Unary, Binary};
ghost use Rattle.chor_base.specs.declared.rule.Rule.TheVariants.{E4};
ghost use Rattle.grammar.specs.Readers.{Halts, Misses, Tells, HaltsIn};
ghost use Rattle.endpoint_grammar.specs.Grammar.{un, comparison, comparisons, operators, expr as an_expr};
ghost use Rattle.endpoint_grammar.specs.Values.{rules, leaf_of, phrase, comparison_op, comparison_phrase};
ghost use Rattle.endpoint_reader.specs.Tokens.{from, written};
ghost use Rattle.endpoint_reader.specs.Known.{IsExprThere};
ghost use Rattle.endpoint_reader.specs.Phrases.{HasRead, IsOperator, marks_of, operand_of, level_of, operand_phrase, op_of, level_phrase};

use crate::input::Input;
use crate::operand::Opening;
use chor_base::{BinOp, Denied, Expr, Memory, Rule, UnOp};
use chor_lexer::Mark;
use std::alloc::Global;

/// The most tokens that an expression may have.
const LONGEST: usize = 255;

/// What an expression is: operands joined by operators of one strength.
#[derive(Clone, Copy)]
pub enum Level {
    /// Operands joined by `||`.
    Or,
    /// Operands joined by `&&`.
    And,
    /// Operands joined by `+` and `-`.
    Sum,
    /// Operands joined by `*` and `/`.
    Product,
}

/// An expression that was read, where the tokens after it begin, and how many more the whole may have.
#[derive(Drop)]
pub struct Reading {
    pub expr: Expr,
    pub at: usize,
    pub room: usize,
}

/// The expression that begins here, and where the tokens after it begin.
pub fn read_expression(alloc: Global, input: &Input, at: usize) -> Result<(Expr, usize), Denied>
    ensures reads { IfOk result (λ x. Tells rules an_expr phrase (from input.now at) (written input.now (term_of x.0)) (from input.now x.1)) }
    ensures known { IfOk result (λ x. IsExprThere input.now x.0) }
    ensures halts { IfErr result (Halts rules an_expr (from input.now at)) }
{
    let reading = read_level(alloc, input, at, LONGEST, Level::Or)?;
    Ok((reading.expr, reading.at))
}

// operand { operator operand }
#[cycle(reading)]
fn read_level(
    alloc: Global,
    input: &Input,
    at: usize,
    room: usize,
    level: Level,
) -> Result<Reading, Denied>
    ensures reads { IfOk result (HasRead input.now (level_of level) (level_phrase level) room at) }
    ensures known { IfOk result (λ x. IsExprThere input.now x.expr) }
    ensures halts { IfErr result (HaltsIn rules E4 (Some room) (level_of level) (from input.now at)) }
{
    let mut left = read_operand(alloc, input, at, room, level)?;
    while let Some(operator) = operator_at(input, left.at, level) {
        let (op, after) = operator;
        input.check_room(left.at, left.room)?;
        let right = read_operand(alloc, input, after, left.room.saturating_sub(1), level)?;
        left = join(alloc, op, left, right)?;
    }
    Ok(left)
}

// Both operands of an operator: the expression goes on after the second.
fn join(alloc: Global, op: BinOp, left: Reading, right: Reading) -> Result<Reading, Memory>
    ensures expr { IfOk result (λ x. term_of x.expr ≡ Binary op (term_of left.expr) (term_of right.expr)) }
    ensures after { IfOk result (λ x. (x.at ≡ right.at) × (x.room ≡ right.room)) }
{
    let expr = Expr::Bin(
        op,
        Box::new(alloc, left.expr)?,
        Box::new(alloc, right.expr)?,
    );
    Ok(Reading {
        expr,
        at: right.at,
        room: right.room,
    })
}

// An operand after its operator.
fn apply(alloc: Global, op: UnOp, operand: Reading) -> Result<Reading, Memory>
    ensures expr { IfOk result (λ x. term_of x.expr ≡ Unary op (term_of operand.expr)) }
    ensures after { IfOk result (λ x. (x.at ≡ operand.at) × (x.room ≡ operand.room)) }
{
    let expr = Expr::Un(op, Box::new(alloc, operand.expr)?);
    Ok(Reading {
        expr,
        at: operand.at,
        room: operand.room,
    })
}

// An operand of the operators of a level.
#[cycle(reading)]
fn read_operand(
    alloc: Global,
    input: &Input,
    at: usize,
    room: usize,
    level: Level,
) -> Result<Reading, Denied>
    ensures reads { IfOk result (HasRead input.now (operand_of level) (operand_phrase level) room at) }
    ensures known { IfOk result (λ x. IsExprThere input.now x.expr) }
    ensures halts { IfErr result (HaltsIn rules E4 (Some room) (operand_of level) (from input.now at)) }
{
    match level {
        Level::Or => read_level(alloc, input, at, room, Level::And),
        Level::And => read_comparison(alloc, input, at, room),
        Level::Sum => read_level(alloc, input, at, room, Level::Product),
        Level::Product => read_unary(alloc, input, at, room),
    }
}

// sum [ operator sum ]
#[cycle(reading)]
fn read_comparison(alloc: Global, input: &Input, at: usize, room: usize) -> Result<Reading, Denied>
    ensures reads { IfOk result (HasRead input.now comparison comparison_phrase room at) }
    ensures known { IfOk result (λ x. IsExprThere input.now x.expr) }
    ensures halts { IfErr result (HaltsIn rules E4 (Some room) comparison (from input.now at)) }
{
    let left = read_level(alloc, input, at, room, Level::Sum)?;
    let Some(operator) = comparison_at(input, left.at) else {
        return Ok(left);
    };
    let (op, after) = operator;
    input.check_room(left.at, left.room)?;
    let right = read_level(alloc, input, after, left.room.saturating_sub(1), Level::Sum)?;
    let whole = join(alloc, op, left, right)?;
    Ok(whole)
}

// An operand without an operator of two operands outside parentheses.
#[cycle(reading)]
fn read_unary(alloc: Global, input: &Input, at: usize, room: usize) -> Result<Reading, Denied>
    ensures reads { IfOk result (HasRead input.now un leaf_of room at) }
    ensures known { IfOk result (λ x. IsExprThere input.now x.expr) }
    ensures halts { IfErr result (HaltsIn rules E4 (Some room) un (from input.now at)) }
{
    let Some(begun) = input.operand_at(at) else {
        return Err(input.refused(Rule::E1, at));
    };
    let (opening, after) = begun;
    input.check_room(at, room)?;
    let left = room.saturating_sub(1);
    match opening {
        Opening::Leaf(expr) => Ok(Reading {
            expr,
            at: after,
            room: left,
        }),
        Opening::Unary(op) => {
            let operand = read_unary(alloc, input, after, left)?;
            let whole = apply(alloc, op, operand)?;
            Ok(whole)
        }
        Opening::Parens => {
            let inside = read_level(alloc, input, after, left, Level::Or)?;
            let at = input.take_mark_in(inside.at, inside.room, Mark::CloseParen)?;
            Ok(Reading {
                expr: inside.expr,
                at,
                room: inside.room.saturating_sub(1),
            })
        }
    }
}

// The operator of a level that stands here, and the place after it.
fn operator_at(input: &Input, at: usize, level: Level) -> Option<(BinOp, usize)>
    ensures found { IfSome result (λ x. IsOperator (marks_of level) (op_of level) x.0 (from input.now at) (from input.now x.1)) }
    ensures none { IfNone result (Misses rules (operators (marks_of level)) (from input.now at)) }
{
    match level {
        Level::Or => Some((BinOp::Or, input.after_mark(at, Mark::Or)?)),
        Level::And => Some((BinOp::And, input.after_mark(at, Mark::And)?)),
        Level::Sum => match input.after_mark(at, Mark::Plus) {
            Some(after) => Some((BinOp::Add, after)),
            None => Some((BinOp::Sub, input.after_mark(at, Mark::Minus)?)),
        },
        Level::Product => match input.after_mark(at, Mark::Star) {
            Some(after) => Some((BinOp::Mul, after)),
            None => Some((BinOp::Div, input.after_mark(at, Mark::Slash)?)),
        },
    }
}

// The operator of a comparison that stands here, and the place after it.
fn comparison_at(input: &Input, at: usize) -> Option<(BinOp, usize)>
    ensures found { IfSome result (λ x. IsOperator comparisons comparison_op x.0 (from input.now at) (from input.now x.1)) }
    ensures none { IfNone result (Misses rules (operators comparisons) (from input.now at)) }
{
    if let Some(after) = input.after_mark(at, Mark::Equal) {
        return Some((BinOp::Eq, after));
    }
    if let Some(after) = input.after_mark(at, Mark::NotEqual) {
        return Some((BinOp::Ne, after));
    }
    if let Some(after) = input.after_mark(at, Mark::Less) {
        return Some((BinOp::Lt, after));
    }
    Some((BinOp::Le, input.after_mark(at, Mark::LessEqual)?))
}
