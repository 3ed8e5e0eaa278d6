//! Renumbered code nodes.

ghost use Rattle.std.specs.Prelude.{◌≡◌, List as AnyList, IfOk, map};
ghost use Rattle.chor_base.specs.Expr.{term_of};
ghost use Rattle.endpoint_code.specs.Code.{children_of};
ghost use Rattle.endpoint_code.specs.Trees.{CodeTree as AnyCode, node_tree};
ghost use Rattle.endpoint_link.specs.Renumbered.{renumbered_value, renumbered_term, renumbered_code, renumbered_arm, joined_tree, HasSameWords, AsksSame};

use crate::renumbering::Renumbering;
use chor_base::{Expr, List, Memory, NameId, Value};
use endpoint_code::{CodeId, CodeNode};
use std::alloc::Global;

// A value, renumbered.
fn renumbered_value(value: Value, numbers: &Renumbering) -> Value
    ensures { result ≡ renumbered_value numbers.now value }
{
    match value {
        Value::Int(number) => Value::Int(number),
        Value::Bool(truth) => Value::Bool(truth),
        Value::Text(text) => Value::Text(numbers.text(text)),
        Value::Part(sid, role) => Value::Part(sid, numbers.name(role)),
    }
}

// An expression, renumbered.
fn renumbered_expr(alloc: Global, expr: &Expr, numbers: &Renumbering) -> Result<Expr, Memory>
    ensures { IfOk result (λ made. term_of made ≡ renumbered_term numbers.now (term_of expr.now)) }
{
    let made = match expr {
        Expr::Lit(value) => Expr::Lit(renumbered_value(*value, numbers)),
        Expr::Var(name) => Expr::Var(numbers.name(*name)),
        Expr::Un(op, operand) => Expr::Un(
            *op,
            Box::new(alloc, renumbered_expr(alloc, operand, numbers)?)?,
        ),
        Expr::Bin(op, left, right) => {
            let left = Box::new(alloc, renumbered_expr(alloc, left, numbers)?)?;
            let right = Box::new(alloc, renumbered_expr(alloc, right, numbers)?)?;
            Expr::Bin(*op, left, right)
        }
    };
    Ok(made)
}

// Arms of a branch, renumbered.
fn renumbered_arms(
    alloc: Global,
    arms: &[(NameId, CodeId)],
    numbers: &Renumbering,
) -> Result<List<(NameId, CodeId)>, Memory>
    ensures { IfOk result (λ made. made ≡ map (renumbered_arm numbers.now) arms.now) }
{
    let mut list = List::new(alloc);
    for arm in arms {
        list.push((numbers.name(arm.0), numbers.code(arm.1)?))?;
    }
    Ok(list)
}

/// A copy of the node, with its names, texts and children renumbered.
#[tactic(auto, using(crate::proofs::Nodes::arms_joined, crate::proofs::Nodes::targets_joined, crate::proofs::Nodes::names_there, crate::proofs::Nodes::labels_there, crate::proofs::Nodes::term_joined))]
pub fn renumbered_node(
    alloc: Global,
    node: &CodeNode,
    numbers: &Renumbering,
) -> Result<CodeNode, Memory>
    ensures tree { IfOk result (λ made. (ts : AnyList AnyCode) → node_tree ts made ≡ joined_tree numbers.now ts node.now) }
    ensures children { IfOk result (λ made. children_of made ≡ map (renumbered_code numbers.now) (children_of node.now)) }
    ensures words { IfOk result (HasSameWords numbers.now node.now) }
    ensures asks { IfOk result (AsksSame numbers.now node.now) }
{
    use CodeNode::*;
    match node {
        Branch(k, a, arms) => {
            let arms = renumbered_arms(alloc, arms.as_slice(), numbers)?;
            Ok(Branch(numbers.name(*k), numbers.name(*a), arms))
        }
        If(e, first, second) => {
            let e = renumbered_expr(alloc, e, numbers)?;
            let first = numbers.code(*first)?;
            let second = numbers.code(*second)?;
            Ok(If(e, first, second))
        }
        Call(f, p, sessions) => {
            let sessions = numbers.names(alloc, sessions.as_slice())?;
            Ok(Call(numbers.name(*f), numbers.name(*p), sessions))
        }
        End => Ok(End),
        Join(c, r, k, next) => {
            let next = numbers.code(*next)?;
            Ok(Join(numbers.name(*c), numbers.name(*r), numbers.name(*k), next))
        }
        Send(k, b, e, next) => {
            let e = renumbered_expr(alloc, e, numbers)?;
            let next = numbers.code(*next)?;
            Ok(Send(numbers.name(*k), numbers.name(*b), e, next))
        }
        Recv(k, a, x, next) => {
            let next = numbers.code(*next)?;
            Ok(Recv(numbers.name(*k), numbers.name(*a), numbers.name(*x), next))
        }
        Pick(k, b, l, next) => {
            let next = numbers.code(*next)?;
            Ok(Pick(numbers.name(*k), numbers.name(*b), numbers.name(*l), next))
        }
        Throw(k, b, h, next) => {
            let next = numbers.code(*next)?;
            Ok(Throw(numbers.name(*k), numbers.name(*b), numbers.name(*h), next))
        }
        Catch(k, a, h, next) => {
            let next = numbers.code(*next)?;
            Ok(Catch(numbers.name(*k), numbers.name(*a), numbers.name(*h), next))
        }
        Set(x, e, next) => {
            let e = renumbered_expr(alloc, e, numbers)?;
            let next = numbers.code(*next)?;
            Ok(Set(numbers.name(*x), e, next))
        }
        Show(e, next) => {
            let e = renumbered_expr(alloc, e, numbers)?;
            let next = numbers.code(*next)?;
            Ok(Show(e, next))
        }
        Host(x, f, a, b, next) => {
            let left = renumbered_expr(alloc, a, numbers)?;
            let right = renumbered_expr(alloc, b, numbers)?;
            let next = numbers.code(*next)?;
            Ok(Host(numbers.name(*x), numbers.name(*f), left, right, next))
        }
    }
}
