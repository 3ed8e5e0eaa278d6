//! How tails of bodies begin.

ghost use Rattle.std.specs.Prelude.{ℕ, IfSome, IfNone};
ghost use Rattle.grammar.specs.Readers.{Misses};
ghost use Rattle.endpoint_grammar.specs.Grammar.{tail};
ghost use Rattle.endpoint_grammar.specs.Values.{rules};
ghost use Rattle.endpoint_reader.specs.Tokens.{from, symbol_of, lexeme_of};
ghost use Rattle.endpoint_reader.specs.Tails.{TailStands, IsTailWord, IsNoTailWord};

use crate::input::Input;
use chor_base::Place;
use chor_lexer::Token;

/// The word with which a tail begins; of a call, where it stands.
#[derive(Clone, Copy)]
pub enum TailWord {
    Branch,
    If,
    Call(Place),
    End,
}

/// The word with which a tail begins that stands here, and the place after it.
pub fn tail_word(input: &Input, at: usize) -> Option<(TailWord, usize)>
    ensures found { IfSome result (λ x. TailStands x.0 (from input.now at) (from input.now x.1)) }
    ensures none { IfNone result ((p : ℕ) → Misses rules (tail p) (from input.now at)) }
{
    let token = input.token_at(at)?;
    let word = word_of(input, token)?;
    Some((word, at + 1))
}

// The word with which a tail begins that this token is.
fn word_of(input: &Input, token: Token) -> Option<TailWord>
    ensures found { IfSome result (λ w. IsTailWord w (lexeme_of input.now token)) }
    ensures none { IfNone result (IsNoTailWord (symbol_of input.now token.kind)) }
{
    if input.is_word(token.kind, b"branch") {
        return Some(TailWord::Branch);
    }
    if input.is_word(token.kind, b"if") {
        return Some(TailWord::If);
    }
    if input.is_word(token.kind, b"end") {
        return Some(TailWord::End);
    }
    if input.is_word(token.kind, b"call") {
        return Some(TailWord::Call(token.place));
    }
    None
}
