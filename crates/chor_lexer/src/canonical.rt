//! The canonical text of expressions.

ghost use Rattle.std.specs.Prelude.{◌≡◌, ◌≤◌, ◌++◌, [], if◌then◌else◌, codes, OnOk, OnErr};
ghost use Rattle.chor_base.specs.Expr.{term_of};
ghost use Rattle.chor_lexer.specs.Mark.{spelling};
ghost use Rattle.chor_lexer.specs.Canonical.{unary_mark, binary_mark, strength, left_needs, right_needs, constant_text, expr_text, needed_text};

use crate::mark::Mark;
use chor_base::{
    BinOp, Expr, Memory, Names, Texts, UnOp, Value, put_bytes, put_int, put_literal, put_name,
    put_truth,
};
use std::alloc::Global;

/// Appends the canonical text of an expression. Parentheses stand where an operand binds less than
/// its operator wants, and nowhere else. A name or text that isn't in its table adds no bytes.
pub fn print_expr(
    alloc: Global,
    expr: &Expr,
    names: &Names,
    texts: &Texts,
    out: &mut Vec<u8>,
) -> Result<(), Memory>
    ensures ok { OnOk result (out.new.items ≡ out.old.items ++ expr_text names.now texts.now (term_of expr.now)) }
    ensures err { OnErr result (out.new.items ≡ out.old.items) }
{
    let mut text = Vec::new(alloc);
    put_operand(&mut text, expr, 0, names, texts)?;
    put_bytes(out, text.as_slice())
}

// Appends the text of an operand, in parentheses where it binds less than is needed, or some of
// that where there is no memory.
fn put_operand(
    text: &mut Vec<u8>,
    operand: &Expr,
    needed: u8,
    names: &Names,
    texts: &Texts,
) -> Result<(), Memory>
    requires { needed ≤ 6 }
    ensures { OnOk result (text.new.items ≡ text.old.items ++ needed_text names.now texts.now needed (term_of operand.now)) }
{
    match operand {
        Expr::Lit(value) => put_constant(text, *value, texts),
        Expr::Var(name) => put_name(text, names, *name),
        Expr::Un(op, operand) => {
            put_bytes(text, unary_mark(*op).spelling())?;
            put_operand(text, operand, 6, names, texts)
        }
        Expr::Bin(op, left, right) => {
            let weak = strength(*op) < needed;
            put_if(text, weak, b"(".as_slice())?;
            put_operand(text, left, left_needs(*op), names, texts)?;
            put_operator(text, *op)?;
            put_operand(text, right, right_needs(*op), names, texts)?;
            put_if(text, weak, b")".as_slice())
        }
    }
}

fn put_constant(text: &mut Vec<u8>, value: Value, texts: &Texts) -> Result<(), Memory>
    ensures { OnOk result (text.new.items ≡ text.old.items ++ constant_text texts.now value) }
{
    let alloc = *text.allocator();
    match value {
        Value::Int(number) => put_int(text, alloc, number),
        Value::Bool(truth) => put_truth(text, truth),
        Value::Text(number) => put_literal(text, alloc, texts, number),
        Value::Part(_, _) => Ok(()),
    }
}

// Appends an operator of two operands with a space on each side.
fn put_operator(text: &mut Vec<u8>, op: BinOp) -> Result<(), Memory>
    ensures { OnOk result (text.new.items ≡ text.old.items ++ (codes " " ++ spelling (binary_mark op) ++ codes " ")) }
{
    put_bytes(text, b" ".as_slice())?;
    put_bytes(text, binary_mark(op).spelling())?;
    put_bytes(text, b" ".as_slice())
}

// Appends bytes, or none.
fn put_if(text: &mut Vec<u8>, wanted: bool, bytes: &[u8]) -> Result<(), Memory>
    ensures { OnOk result (text.new.items ≡ text.old.items ++ (if wanted then bytes.now else [])) }
{
    if wanted {
        put_bytes(text, bytes)
    } else {
        Ok(())
    }
}

fn unary_mark(op: UnOp) -> Mark
    ensures { result ≡ unary_mark op }
{
    match op {
        UnOp::Neg => Mark::Minus,
        UnOp::Not => Mark::Not,
    }
}

fn binary_mark(op: BinOp) -> Mark
    ensures { result ≡ binary_mark op }
{
    match op {
        BinOp::Add => Mark::Plus,
        BinOp::Sub => Mark::Minus,
        BinOp::Mul => Mark::Star,
        BinOp::Div => Mark::Slash,
        BinOp::Eq => Mark::Equal,
        BinOp::Ne => Mark::NotEqual,
        BinOp::Lt => Mark::Less,
        BinOp::Le => Mark::LessEqual,
        BinOp::And => Mark::And,
        BinOp::Or => Mark::Or,
    }
}

// How strongly an operator binds.
pub fn strength(op: BinOp) -> u8
    ensures { result ≡ strength op }
{
    match op {
        BinOp::Or => 1,
        BinOp::And => 2,
        BinOp::Eq | BinOp::Ne | BinOp::Lt | BinOp::Le => 3,
        BinOp::Add | BinOp::Sub => 4,
        BinOp::Mul | BinOp::Div => 5,
    }
}

// The least strength of a left operand without parentheses: a comparison has no comparison as its
// operand, and all other operators group to the left.
fn left_needs(op: BinOp) -> u8
    ensures { result ≡ left_needs op }
{
    match strength(op) {
        3 => 4,
        own => own,
    }
}

// The least strength of a right operand without parentheses.
fn right_needs(op: BinOp) -> u8
    ensures { result ≡ right_needs op }
{
    strength(op) + 1
}
