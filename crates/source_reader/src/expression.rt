//! Expressions.

ghost use Rattle.std.specs.Prelude.{IfOk, IfErr};
ghost use Rattle.chor_base.specs.Expr.{term_of};
ghost use Rattle.source_grammar.specs.Symbols.{Halts};
ghost use Rattle.source_grammar.specs.Expressions.{ExprPart, Operator};
ghost use Rattle.source_reader.specs.Reading.{names_of, tokens_from, ReadsTo};

use crate::input::Input;
use chor_base::{Denied, Expr, Rule};
use chor_lexer::read_expr;
use std::alloc::Global;

// expr
pub fn read_expression(alloc: Global, input: &Input, at: usize) -> Result<(Expr, usize), Denied>
    ensures reads { IfOk result (λ x. ReadsTo ExprPart Operator input.now at (term_of x.0) x.1) }
    ensures halts { IfErr result (Halts ExprPart Operator (names_of input.now) (tokens_from input.now at)) }
{
    if at >= input.tokens.items.len() {
        return Err(input.refused(Rule::P1, at));
    }
    let (expr, after) = read_expr(alloc, input.tokens, input.names, at as u32)?;
    Ok((expr, after as usize))
}
