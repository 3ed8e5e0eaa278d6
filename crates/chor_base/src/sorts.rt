//! The sorts of expressions.

ghost use Rattle.std.specs.Prelude.{◌≡◌};
ghost use Rattle.std.specs.FinMap as fin;
ghost use Rattle.chor_base.specs.Expr.{term_of};
ghost use Rattle.chor_base.specs.Sorts.{same_sort, sort_of_value, takes, take_both, sort_of_unary, sort_of_binary, sort_of_operator, sort_of};

use crate::expr::{BinOp, Expr, UnOp};
use crate::name_map::NameMap;
use crate::rule::Rule;
use crate::value::{Sort, Value};

/// The sorts of the variables of one process that are set.
pub type Env = NameMap<Sort>;

/// The sort of an expression, or the first rule that it violates: that of its left operand, else
/// that of its right operand, else that of its operator. T8 is violated at a variable that isn't
/// set, T3 at operands of a wrong sort and at an endpoint.
pub fn sort_of(expr: &Expr, env: &Env) -> Result<Sort, Rule>
    ensures { result ≡ sort_of (term_of expr.now) (λ x. fin.get env.now.map x.0) }
{
    match expr {
        Expr::Lit(value) => sort_of_value(*value).ok_or(Rule::T3),
        Expr::Var(name) => env.get(*name).ok_or(Rule::T8),
        Expr::Un(op, operand) => sort_of_unary(*op, sort_of(operand, env)),
        Expr::Bin(op, left, right) => sort_of_binary(*op, sort_of(left, env), sort_of(right, env)),
    }
}

// The sort of a value; an endpoint has none.
fn sort_of_value(value: Value) -> Option<Sort>
    ensures { result ≡ sort_of_value value }
{
    match value {
        Value::Int(_) => Some(Sort::Int),
        Value::Bool(_) => Some(Sort::Bool),
        Value::Text(_) => Some(Sort::Text),
        Value::Part(_, _) => None,
    }
}

fn sort_of_unary(op: UnOp, operand: Result<Sort, Rule>) -> Result<Sort, Rule>
    ensures { result ≡ sort_of_unary op operand }
{
    match (op, operand) {
        (_, Err(rule)) => Err(rule),
        (UnOp::Neg, Ok(sort)) => takes(Sort::Int, Sort::Int, sort),
        (UnOp::Not, Ok(sort)) => takes(Sort::Bool, Sort::Bool, sort),
    }
}

// The left operand's fault, else the right one's, else the operator's.
fn sort_of_binary(
    op: BinOp,
    left: Result<Sort, Rule>,
    right: Result<Sort, Rule>,
) -> Result<Sort, Rule>
    ensures { result ≡ sort_of_binary op left right }
{
    match (left, right) {
        (Err(rule), _) => Err(rule),
        (Ok(_), Err(rule)) => Err(rule),
        (Ok(one), Ok(other)) => sort_of_operator(op, one, other),
    }
}

fn sort_of_operator(op: BinOp, left: Sort, right: Sort) -> Result<Sort, Rule>
    ensures { result ≡ sort_of_operator op left right }
{
    match op {
        BinOp::Add | BinOp::Sub | BinOp::Mul | BinOp::Div => {
            take_both(Sort::Int, Sort::Int, left, right)
        }
        BinOp::Eq | BinOp::Ne => takes(left, Sort::Bool, right),
        BinOp::Lt | BinOp::Le => take_both(Sort::Int, Sort::Bool, left, right),
        BinOp::And | BinOp::Or => take_both(Sort::Bool, Sort::Bool, left, right),
    }
}

// Two operands of that sort make a result of this sort.
fn take_both(wanted: Sort, made: Sort, left: Sort, right: Sort) -> Result<Sort, Rule>
    ensures { result ≡ take_both wanted made left right }
{
    if wanted.is_same(left) {
        takes(wanted, made, right)
    } else {
        Err(Rule::T3)
    }
}

// An operand of that sort makes a result of this sort.
fn takes(wanted: Sort, made: Sort, sort: Sort) -> Result<Sort, Rule>
    ensures { result ≡ takes wanted made sort }
{
    if wanted.is_same(sort) {
        Ok(made)
    } else {
        Err(Rule::T3)
    }
}
