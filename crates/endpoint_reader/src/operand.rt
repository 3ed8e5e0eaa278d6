//! What an operand of an expression begins with.

ghost use Rattle.std.specs.Prelude.{◌≡◌, ◌<◌, length, IfSome, IfNone, true, false};
ghost use Rattle.chor_base.specs.Expr.{term_of};
ghost use Rattle.grammar.specs.Classes.{a_mark, is_of, is_among};
ghost use Rattle.grammar.specs.Readers.{Misses};
ghost use Rattle.endpoint_grammar.specs.Grammar.{un};
ghost use Rattle.endpoint_grammar.specs.Values.{rules};
ghost use Rattle.endpoint_reader.specs.Tokens.{from, symbol_of, written};
ghost use Rattle.endpoint_reader.specs.There.{kind_there};
ghost use Rattle.endpoint_reader.specs.Known.{IsExprThere, IsOpeningThere};
ghost use Rattle.endpoint_reader.specs.Phrases.{leaf_classes, IsLeaf, OpensWith, Opens};

use crate::input::Input;
use chor_base::{Expr, NameId, UnOp, Value};
use chor_lexer::{Kind, Mark};

/// An operator of one operand, an opening parenthesis, or an operand of one token.
#[derive(Drop)]
pub enum Opening {
    Unary(UnOp),
    Parens,
    Leaf(Expr),
}

impl Input<'_> {
    /// The beginning of an operand that stands here, and the place after its first token.
    pub fn operand_at(&self, at: usize) -> Option<(Opening, usize)>
        ensures found { IfSome result (λ x. Opens self.now x.0 (from self.now at) (from self.now x.1)) }
        ensures known { IfSome result (λ x. IsOpeningThere self.now x.0) }
        ensures none { IfNone result (Misses rules un (from self.now at)) }
    {
        let token = self.token_at(at)?;
        let opening = self.opening_of(token.kind)?;
        Some((opening, at + 1))
    }

    // What an operand begins with that begins with a token of this kind.
    fn opening_of(&self, kind: Kind) -> Option<Opening>
        requires { kind_there self.now.names.now self.now.texts.now kind ≡ true }
        ensures found { IfSome result (λ o. OpensWith self.now o (symbol_of self.now kind)) }
        ensures known { IfSome result (IsOpeningThere self.now) }
        ensures minus { IfNone result (is_of (a_mark Mark.Minus) (symbol_of self.now kind) ≡ false) }
        ensures not { IfNone result (is_of (a_mark Mark.Not) (symbol_of self.now kind) ≡ false) }
        ensures parens { IfNone result (is_of (a_mark Mark.OpenParen) (symbol_of self.now kind) ≡ false) }
        ensures leaf { IfNone result (is_among leaf_classes (symbol_of self.now kind) ≡ false) }
    {
        if self.is_mark(kind, Mark::Minus) {
            return Some(Opening::Unary(UnOp::Neg));
        }
        if self.is_mark(kind, Mark::Not) {
            return Some(Opening::Unary(UnOp::Not));
        }
        if self.is_mark(kind, Mark::OpenParen) {
            return Some(Opening::Parens);
        }
        match self.leaf_of(kind) {
            Some(expr) => Some(Opening::Leaf(expr)),
            None => None,
        }
    }

    // The operand that a token of this kind alone is.
    fn leaf_of(&self, kind: Kind) -> Option<Expr>
        requires { kind_there self.now.names.now self.now.texts.now kind ≡ true }
        ensures found { IfSome result (λ e. IsLeaf (symbol_of self.now kind) (written self.now (term_of e))) }
        ensures known { IfSome result (IsExprThere self.now) }
        ensures none { IfNone result (is_among leaf_classes (symbol_of self.now kind) ≡ false) }
    {
        match kind {
            Kind::Word(name) => self.word_leaf(name),
            Kind::Number(number) => Some(Expr::Lit(Value::Int(number))),
            Kind::Text(text) => Some(Expr::Lit(Value::Text(text))),
            Kind::Mark(_) | Kind::Last => None,
        }
    }

    // The operand that a word is.
    fn word_leaf(&self, name: NameId) -> Option<Expr>
        requires { name.0 < length self.now.names.now }
        ensures found { IfSome result (λ e. IsLeaf (symbol_of self.now (Kind.Word name)) (written self.now (term_of e))) }
        ensures known { IfSome result (IsExprThere self.now) }
        ensures none { IfNone result (is_among leaf_classes (symbol_of self.now (Kind.Word name)) ≡ false) }
    {
        let kind = Kind::Word(name);
        if self.is_word(kind, b"true") {
            return Some(Expr::Lit(Value::Bool(true)));
        }
        if self.is_word(kind, b"false") {
            return Some(Expr::Lit(Value::Bool(false)));
        }
        if self.is_name(kind) {
            return Some(Expr::Var(name));
        }
        None
    }
}
