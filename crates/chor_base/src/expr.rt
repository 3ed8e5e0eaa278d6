//! Expressions and their values.

ghost use Rattle.std.specs.Prelude.{◌≡◌, ◌≢◌, pos, IfOk, map};
ghost use Rattle.chor_base.specs.Expr.{term_of, value_of, unary, binary, divided, number_of, truth_of, is_same};

use crate::list::List;
use crate::memory::Memory;
use crate::name_map::Vars;
use crate::names::NameId;
use crate::value::Value;
use std::alloc::Global;

/// An operator of one operand.
#[derive(Clone, Copy, PartialEq, Eq)]
pub enum UnOp {
    /// 0 minus a number.
    Neg,
    /// The other truth value.
    Not,
}

/// An operator of two operands.
#[derive(Clone, Copy, PartialEq, Eq)]
pub enum BinOp {
    Add,
    Sub,
    Mul,
    Div,
    Eq,
    Ne,
    Lt,
    Le,
    And,
    Or,
}

/// An expression at one process.
#[derive(Drop)]
pub enum Expr {
    Lit(Value),
    Var(NameId),
    Un(UnOp, Box<Expr>),
    Bin(BinOp, Box<Expr>, Box<Expr>),
}

impl Expr {
    /// The same expression once more.
    pub fn copy(&self, alloc: Global) -> Result<Expr, Memory>
        ensures { IfOk result (λ expr. term_of expr ≡ term_of self.now) }
    {
        let copied = match self {
            Expr::Lit(value) => Expr::Lit(*value),
            Expr::Var(name) => Expr::Var(*name),
            Expr::Un(op, operand) => Expr::Un(*op, Box::new(alloc, operand.copy(alloc)?)?),
            Expr::Bin(op, left, right) => {
                let left = Box::new(alloc, left.copy(alloc)?)?;
                let right = Box::new(alloc, right.copy(alloc)?)?;
                Expr::Bin(*op, left, right)
            }
        };
        Ok(copied)
    }
}

impl List<Expr> {
    /// The same expressions once more.
    pub fn copy(&self, alloc: Global) -> Result<List<Expr>, Memory>
        ensures { IfOk result (λ list. map term_of list ≡ map term_of self.now) }
    {
        let mut list = List::new(alloc);
        for expr in self.as_slice() {
            list.push(expr.copy(alloc)?)?;
        }
        Ok(list)
    }
}

// The number that an operand counts as: 0 where it is none.
fn number_of(value: Value) -> i64
    ensures { result ≡ number_of value }
{
    match value {
        Value::Int(number) => number,
        _ => 0,
    }
}

// The truth value that an operand counts as: false where it is none.
fn truth_of(value: Value) -> bool
    ensures { result ≡ truth_of value }
{
    match value {
        Value::Bool(truth) => truth,
        _ => false,
    }
}

// A quotient rounded toward zero: 0 by 0, and the greatest number for the least by -1.
fn divided(left: i64, right: i64) -> i64
    ensures { result ≡ divided left right }
{
    if right == 0 {
        0
    } else {
        left.saturating_div(right)
    }
}

fn is_same(left: Value, right: Value) -> bool
    ensures { result ≡ is_same left right }
{
    match (left, right) {
        (Value::Int(a), Value::Int(b)) => a == b,
        (Value::Bool(a), Value::Bool(b)) => a == b,
        (Value::Text(a), Value::Text(b)) => a == b,
        (Value::Part(a, r), Value::Part(b, s)) => a == b && r == s,
        _ => false,
    }
}

fn unary(op: UnOp, value: Value) -> Value
    ensures { result ≡ unary op value }
{
    match op {
        UnOp::Neg => Value::Int(0i64.saturating_sub(number_of(value))),
        UnOp::Not => Value::Bool(!truth_of(value)),
    }
}

fn binary(op: BinOp, left: Value, right: Value) -> Value
    ensures { result ≡ binary op left right }
{
    let a = number_of(left);
    let b = number_of(right);
    match op {
        BinOp::Add => Value::Int(a.saturating_add(b)),
        BinOp::Sub => Value::Int(a.saturating_sub(b)),
        BinOp::Mul => Value::Int(a.saturating_mul(b)),
        BinOp::Div => Value::Int(divided(a, b)),
        BinOp::Lt => Value::Bool(a < b),
        BinOp::Le => Value::Bool(a <= b),
        BinOp::Eq => Value::Bool(is_same(left, right)),
        BinOp::Ne => Value::Bool(!is_same(left, right)),
        BinOp::And => Value::Bool(truth_of(left) && truth_of(right)),
        BinOp::Or => Value::Bool(truth_of(left) || truth_of(right)),
    }
}

/// The value of an expression where the variables are these. It is total: a variable that isn't
/// set is 0, and an operand of another kind than its operator wants counts as 0 or as false.
pub fn eval(expr: &Expr, vars: &Vars) -> Value
    ensures { result ≡ value_of (term_of expr.now) vars.now.map }
{
    match expr {
        Expr::Lit(value) => *value,
        Expr::Var(name) => vars.get(*name).unwrap_or(Value::Int(0)),
        Expr::Un(op, operand) => unary(*op, eval(operand, vars)),
        Expr::Bin(op, left, right) => binary(*op, eval(left, vars), eval(right, vars)),
    }
}
