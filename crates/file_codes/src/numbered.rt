//! Whether the names and texts of code are in their tables.

ghost use Rattle.std.specs.Prelude.{◌≡◌, ◌&&◌, true, All};
ghost use Rattle.std.specs.List.{list_all};
ghost use Rattle.chor_base.specs.Expr.{term_of};
ghost use Rattle.endpoint_code.specs.Kept.{has_name, has_text, value_there, term_there, node_there};

use chor_base::{Expr, NameId, Names, Texts, Value};
use endpoint_code::{CodeId, CodeNode};

/// Whether those of all nodes are.
pub fn are_there(names: &Names, texts: &Texts, nodes: &[CodeNode]) -> bool
    ensures { result ≡ true → All (λ o. node_there (has_name names.now) (has_text texts.now) o ≡ true) nodes.now }
{
    for node in nodes {
        if !node_there(names, texts, node) {
            return false;
        }
    }
    true
}

fn node_there(names: &Names, texts: &Texts, node: &CodeNode) -> bool
    ensures { result ≡ node_there (has_name names.now) (has_text texts.now) node.now }
{
    use CodeNode::*;
    match node {
        Join(a, b, c, _) | Recv(a, b, c, _) | Pick(a, b, c, _) => three_there(names, *a, *b, *c),
        Throw(a, b, c, _) | Catch(a, b, c, _) => three_there(names, *a, *b, *c),
        Send(a, b, e, _) => has(names, *a) && has(names, *b) && term_there(names, texts, e),
        Branch(a, b, arms) => {
            has(names, *a) && has(names, *b) && labels_there(names, arms.as_slice())
        }
        Set(x, e, _) => has(names, *x) && term_there(names, texts, e),
        Show(e, _) | If(e, _, _) => term_there(names, texts, e),
        Host(x, f, a, b, _) => {
            has(names, *x)
                && has(names, *f)
                && term_there(names, texts, a)
                && term_there(names, texts, b)
        }
        Call(f, p, sessions) => {
            has(names, *f) && has(names, *p) && all_there(names, sessions.as_slice())
        }
        End => true,
    }
}

fn has(names: &Names, name: NameId) -> bool
    ensures { result ≡ has_name names.now name }
{
    (name.0 as usize) < names.len()
}

fn three_there(names: &Names, a: NameId, b: NameId, c: NameId) -> bool
    ensures { result ≡ (has_name names.now a && has_name names.now b && has_name names.now c) }
{
    has(names, a) && has(names, b) && has(names, c)
}

fn all_there(names: &Names, list: &[NameId]) -> bool
    ensures { result ≡ list_all (has_name names.now) list.now }
{
    for name in list {
        if !has(names, *name) {
            return false;
        }
    }
    true
}

fn labels_there(names: &Names, arms: &[(NameId, CodeId)]) -> bool
    ensures { result ≡ list_all (λ arm. has_name names.now arm.0) arms.now }
{
    for arm in arms {
        if !has(names, arm.0) {
            return false;
        }
    }
    true
}

fn term_there(names: &Names, texts: &Texts, expr: &Expr) -> bool
    ensures { result ≡ term_there (has_name names.now) (has_text texts.now) (term_of expr.now) }
{
    match expr {
        Expr::Lit(value) => value_there(texts, *value),
        Expr::Var(name) => has(names, *name),
        Expr::Un(_, operand) => term_there(names, texts, operand),
        Expr::Bin(_, left, right) => {
            term_there(names, texts, left) && term_there(names, texts, right)
        }
    }
}

fn value_there(texts: &Texts, value: Value) -> bool
    ensures { result ≡ value_there (λ x. true) (has_text texts.now) value }
{
    match value {
        Value::Text(text) => (text as usize) < texts.len(),
        Value::Part(_, _) => false,
        _ => true,
    }
}
