//! Keywords.

ghost use Rattle.std.specs.Prelude.{◌≡◌, ◌∷◌, [], bytes_eq};
ghost use Rattle.std.specs.List.{list_any};
ghost use Rattle.chor_lexer.specs.Keywords.{keywords};

/// Whether a word is no name.
#[tactic(auto, using(crate::proofs::Keywords::keywords_are))]
pub fn is_keyword(word: &[u8]) -> bool
    ensures { result ≡ list_any (bytes_eq word.now) keywords }
{
    is_any(word, b"protocol", b"service", b"proc", b"main", b"start")
        || is_any(word, b"new", b"if", b"else", b"call", b"end")
        || is_any(word, b"show", b"host", b"then", b"int", b"bool")
        || is_any(word, b"text", b"true", b"false", b"chor", b"capacity")
}

// Whether a word is one of these.
fn is_any(word: &[u8], a: &[u8], b: &[u8], c: &[u8], d: &[u8], e: &[u8]) -> bool
    ensures { result ≡ list_any (bytes_eq word.now) (a.now ∷ b.now ∷ c.now ∷ d.now ∷ e.now ∷ []) }
{
    word == a || word == b || word == c || word == d || word == e
}
