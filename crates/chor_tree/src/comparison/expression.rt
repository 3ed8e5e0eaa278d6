//! Expressions.

ghost use Rattle.std.specs.Prelude.{◌≡◌};
ghost use Rattle.chor_base.specs.Expr.{term_of};
ghost use Rattle.chor_tree.specs.Same.{same_value, same_unary, same_binary, same_term, number_of_binary};
ghost use Rattle.chor_tree.specs.Both.{words_of, texts_of};

use crate::comparison::both::{Say, same_texts};
use crate::file::File;
use chor_base::{BinOp, Expr, UnOp, Value};

impl Say for Value {
    ghost same = { λ f g. same_value (words_of f g) (texts_of f g) };

    fn says(&self, other: &Self, left: &File, right: &File) -> bool {
        match (self, other) {
            (Value::Int(y), Value::Int(z)) => *y == *z,
            (Value::Bool(p), Value::Bool(q)) => *p == *q,
            (Value::Text(x), Value::Text(y)) => same_texts(*x, *y, left, right),
            (Value::Part(s, a), Value::Part(u, b)) => (*s == *u) & a.says(b, left, right),
            _ => false,
        }
    }
}

fn same_unary(left: UnOp, right: UnOp) -> bool
    ensures { result ≡ same_unary left right }
{
    match (left, right) {
        (UnOp::Neg, UnOp::Neg) | (UnOp::Not, UnOp::Not) => true,
        _ => false,
    }
}

fn number_of_binary(op: BinOp) -> u8
    ensures { result ≡ number_of_binary op }
{
    match op {
        BinOp::Add => 0,
        BinOp::Sub => 1,
        BinOp::Mul => 2,
        BinOp::Div => 3,
        BinOp::Eq => 4,
        BinOp::Ne => 5,
        BinOp::Lt => 6,
        BinOp::Le => 7,
        BinOp::And => 8,
        BinOp::Or => 9,
    }
}

impl Say for Expr {
    ghost same = { λ f g d e. same_term (words_of f g) (texts_of f g) (term_of d) (term_of e) };

    fn says(&self, other: &Self, left: &File, right: &File) -> bool {
        match (self, other) {
            (Expr::Lit(v), Expr::Lit(w)) => v.says(w, left, right),
            (Expr::Var(x), Expr::Var(y)) => x.says(y, left, right),
            (Expr::Un(o, a), Expr::Un(p, b)) => same_unary(*o, *p) & a.says(b, left, right),
            (Expr::Bin(o, a, b), Expr::Bin(p, c, d)) => {
                (number_of_binary(*o) == number_of_binary(*p))
                    & a.says(c, left, right)
                    & b.says(d, left, right)
            }
            _ => false,
        }
    }
}
