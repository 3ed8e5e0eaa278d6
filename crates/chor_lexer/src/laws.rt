//! What holds of all bytes, and of all expressions.

ghost use Rattle.std.specs.Prelude.{◌≡◌, ◌⊎◌, ℕ, List, ◌∷◌, ◌++◌};
ghost use Rattle.chor_base.specs.Words.{AllDistinct};
ghost use Rattle.chor_base.specs.Expr.{Term};
ghost use Rattle.chor_base.specs.declared.expr.BinOp.{BinOp};
ghost use Rattle.chor_base.specs.declared.rule.Place.{Place};
ghost use Rattle.chor_base.specs.declared.rule.Rule.{Rule};
ghost use Rattle.chor_lexer.specs.Lexeme.{Lexeme};
ghost use Rattle.chor_lexer.specs.Tokens.{IsTokens, AreSpelled};
ghost use Rattle.chor_lexer.specs.Refusal.{Refuses};
ghost use Rattle.chor_lexer.specs.declared.token.Token.{Token};
ghost use Rattle.chor_lexer.specs.Keywords.{HasMark};
ghost use Rattle.chor_lexer.specs.Canonical.{binary_mark, expr_text};
ghost use Rattle.chor_lexer.specs.Grammar.{IsExpr, IsLongestFront};
ghost use Rattle.chor_lexer.specs.Spelling.{IsSource, IsAllButLast, ReadsBack, expr_symbols, SpellAll};

/// Bytes have one list of tokens at most.
pub fn one_reading()
    ensures { (bytes : List ℕ) (ls ms : List Lexeme) → IsTokens bytes ls → IsTokens bytes ms → ls ≡ ms }
{}

/// Bytes that have tokens aren't refused.
pub fn never_both()
    ensures { (bytes : List ℕ) (ls : List Lexeme) (rule : Rule) (place : Place) → IsTokens bytes ls → Refuses bytes rule place → ⊥ }
{}

/// Bytes are refused by one rule at most, and at one place.
pub fn one_refusal()
    ensures { (bytes : List ℕ) (r s : Rule) (p q : Place) → Refuses bytes r p → Refuses bytes s q → (r ≡ s) × (p ≡ q) }
{}

/// All bytes have tokens, or are refused.
pub fn one_or_the_other()
    ensures { (bytes : List ℕ) → ((ls : List Lexeme) × IsTokens bytes ls) ⊎ ((rule : Rule) × (place : Place) × Refuses bytes rule place) }
{}

/// Tokens are one expression at most.
pub fn one_expression()
    ensures { (names : List (List ℕ)) (ts : List Token) (x y : Term) → IsExpr names ts x → IsExpr names ts y → x ≡ y }
{}

/// An expression after which no operator of two operands follows is the longest front: nothing
/// more belongs to it.
pub fn derived_is_longest()
    ensures { (names : List (List ℕ)) (w : List Token) (t : Token) (rest : List Token) (x : Term) → IsExpr names w x → ((op : BinOp) → HasMark (binary_mark op) t → ⊥) → IsLongestFront names w (t ∷ rest) (w ++ t ∷ rest) }
{}

/// What the canonical text of an expression spells is that expression.
pub fn symbols_read_back()
    ensures { (names texts : List (List ℕ)) (x : Term) (ts : List Token) → AllDistinct names → AllDistinct texts → IsSource names texts x → SpellAll names texts ts (expr_symbols names texts x) → IsExpr names ts x }
{}

/// An expression that tokens of a file derive is one of a source.
pub fn derived_is_source()
    ensures { (bytes : List ℕ) (names texts : List (List ℕ)) (ls : List Lexeme) (before written after : List Token) (x : Term) → IsTokens bytes ls → AreSpelled names texts (before ++ written ++ after) ls → IsExpr names written x → IsSource names texts x }
{}

/// The canonical text of an expression of a source reads back: it has tokens, and whatever tokens
/// it has, they are the expression, and then the end.
pub fn text_reads_back()
    ensures some { (names texts : List (List ℕ)) (x : Term) → AllDistinct names → AllDistinct texts → IsSource names texts x → ReadsBack names texts x }
    ensures all { (names texts : List (List ℕ)) (x : Term) (ls : List Lexeme) (ts : List Token) → AllDistinct names → AllDistinct texts → IsSource names texts x → IsTokens (expr_text names texts x) ls → AreSpelled names texts ts ls → IsAllButLast names ts x }
{}
