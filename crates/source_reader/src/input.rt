//! Tokens, one by one.

ghost use Rattle.std.specs.Prelude.{◌≡◌, ◌↔◌, ◌∷◌, ◌-◌, ℕ, List, Some, IfSome, IfNone, IfOk, IfErr, OnOk, IsTrue, slice_get};
ghost use Rattle.chor_base.specs.declared.rule.Rule.TheVariants.{P3};
ghost use Rattle.chor_lexer.specs.declared.token.Token.{Token};
ghost use Rattle.chor_lexer.specs.Keywords.{IsName};
ghost use Rattle.chor_tree.specs.declared.file.Named.{Named};
ghost use Rattle.source_grammar.specs.Symbols.{Nothing, Head, Halts, RefusesFirst, HasRoom, IsFull};
ghost use Rattle.source_grammar.specs.Grammar.{NameIs, WordIs, NumberIs, MarkIs};
ghost use Rattle.source_grammar.specs.Parts.{MarkPart, WordPart, NamePart, AName, IsKeyword};
ghost use Rattle.source_grammar.specs.Files.{NumberPart};
ghost use Rattle.source_reader.specs.Reading.{names_of, tokens_from, Ends};

use chor_base::{Denied, NameId, Names, Place, Refusal, Rule};
use chor_lexer::{Kind, Mark, Tokens, is_keyword};
use chor_tree::Named;

/// The tokens of a file, and the table in which its words have their numbers. A place in them is
/// how many tokens stand before it.
#[derive(Drop)]
pub struct Input<'a> {
    pub tokens: &'a Tokens,
    pub names: &'a Names,
}

impl Input<'_> {
    /// The name that stands here, and the place after it.
    pub fn name_at(&self, at: usize) -> Option<(Named, usize)>
        ensures found { IfSome result (λ x. NameIs (names_of self.now) (tokens_from self.now at) x.0 (tokens_from self.now x.1)) }
        ensures none { IfNone result ((n : Named) (rest : List Token) → NameIs (names_of self.now) (tokens_from self.now at) n rest → ⊥) }
    {
        let token = *self.tokens.items.as_slice().get(at)?;
        let Kind::Word(name) = token.kind else {
            return None;
        };
        if !self.is_name(name) {
            return None;
        }
        let named = Named {
            name,
            place: token.place,
        };
        Some((named, at + 1))
    }

    /// Whether a name stands here.
    pub fn has_name(&self, at: usize) -> bool
        ensures { IsTrue result ↔ Head AName (names_of self.now) (tokens_from self.now at) }
    {
        self.name_at(at).is_some()
    }

    /// Where this word stands, if here, and the place after it.
    pub fn after_word(&self, at: usize, word: &[u8]) -> Option<usize>
        ensures found { IfSome result (λ after. WordIs (names_of self.now) word.now (tokens_from self.now at) (tokens_from self.now after)) }
        ensures none { IfNone result ((rest : List Token) → WordIs (names_of self.now) word.now (tokens_from self.now at) rest → ⊥) }
    {
        let token = *self.tokens.items.as_slice().get(at)?;
        match token.kind {
            Kind::Word(name) if self.is_spelled(name, word) => Some(at + 1),
            _ => None,
        }
    }

    /// The number that stands here, and the place after it.
    pub fn number_at(&self, at: usize) -> Option<(u64, usize)>
        ensures found { IfSome result (λ x. NumberIs x.0 (tokens_from self.now at) (tokens_from self.now x.1)) }
        ensures none { IfNone result ((n : ℕ) (rest : List Token) → NumberIs n (tokens_from self.now at) rest → ⊥) }
    {
        let token = *self.tokens.items.as_slice().get(at)?;
        let Kind::Number(number) = token.kind else {
            return None;
        };
        if number < 0 {
            return None;
        }
        Some((number.unsigned_abs(), at + 1))
    }

    /// The place after this number, if it stands here.
    pub fn after_number(&self, at: usize, number: u64) -> Option<usize>
        ensures found { IfSome result (λ after. NumberIs number (tokens_from self.now at) (tokens_from self.now after)) }
        ensures none { IfNone result ((rest : List Token) → NumberIs number (tokens_from self.now at) rest → ⊥) }
    {
        let token = *self.tokens.items.as_slice().get(at)?;
        let Kind::Number(found) = token.kind else {
            return None;
        };
        if found < 0 || found.unsigned_abs() != number {
            return None;
        }
        Some(at + 1)
    }

    /// The place after this mark, if it stands here.
    pub fn after_mark(&self, at: usize, mark: Mark) -> Option<usize>
        ensures found { IfSome result (λ after. MarkIs mark (tokens_from self.now at) (tokens_from self.now after)) }
        ensures none { IfNone result ((rest : List Token) → MarkIs mark (tokens_from self.now at) rest → ⊥) }
    {
        let token = *self.tokens.items.as_slice().get(at)?;
        match token.kind {
            Kind::Mark(found) if found == mark => Some(at + 1),
            _ => None,
        }
    }

    /// The name that has to stand here, and the place after it.
    pub fn take_name(&self, at: usize) -> Result<(Named, usize), Denied>
        ensures read { IfOk result (λ x. NameIs (names_of self.now) (tokens_from self.now at) x.0 (tokens_from self.now x.1)) }
        ensures halts { IfErr result (Halts NamePart Nothing (names_of self.now) (tokens_from self.now at)) }
    {
        match self.name_at(at) {
            Some(found) => Ok(found),
            None => Err(self.refused(Rule::P1, at)),
        }
    }

    /// The place after this word, which has to stand here.
    pub fn take_word(&self, at: usize, word: &[u8]) -> Result<usize, Denied>
        ensures read { IfOk result (λ after. WordIs (names_of self.now) word.now (tokens_from self.now at) (tokens_from self.now after)) }
        ensures halts { IfErr result (λ d. IsKeyword word.now → Halts (WordPart word.now) Nothing (names_of self.now) (tokens_from self.now at) d) }
    {
        match self.after_word(at, word) {
            Some(after) => Ok(after),
            None => Err(self.refused(Rule::P1, at)),
        }
    }

    /// The place after this number, which has to stand here.
    pub fn take_number(&self, at: usize, number: u64) -> Result<usize, Denied>
        ensures read { IfOk result (λ after. NumberIs number (tokens_from self.now at) (tokens_from self.now after)) }
        ensures halts { IfErr result (Halts (NumberPart number) Nothing (names_of self.now) (tokens_from self.now at)) }
    {
        match self.after_number(at, number) {
            Some(after) => Ok(after),
            None => Err(self.refused(Rule::P1, at)),
        }
    }

    /// The place after this mark, which has to stand here.
    pub fn take_mark(&self, at: usize, mark: Mark) -> Result<usize, Denied>
        ensures read { IfOk result (λ after. MarkIs mark (tokens_from self.now at) (tokens_from self.now after)) }
        ensures halts { IfErr result (Halts (MarkPart mark) Nothing (names_of self.now) (tokens_from self.now at)) }
    {
        match self.after_mark(at, mark) {
            Some(after) => Ok(after),
            None => Err(self.refused(Rule::P1, at)),
        }
    }

    /// A name may stand here, unless it begins an item of a list that has all that it may have.
    pub fn room_for_name(&self, at: usize, count: usize, limit: usize) -> Result<(), Denied>
        ensures room { OnOk result (HasRoom AName (names_of self.now) (tokens_from self.now at) (limit - count)) }
        ensures full { IfErr result (IsFull AName (names_of self.now) (tokens_from self.now at) (limit - count) P3) }
    {
        if count >= limit && self.has_name(at) {
            return Err(self.refused(Rule::P3, at));
        }
        Ok(())
    }

    /// The refusal of the token that stands here.
    pub fn refused(&self, rule: Rule, at: usize) -> Denied
        ensures { RefusesFirst rule (tokens_from self.now at) result }
    {
        Denied::Refused(Refusal {
            rule,
            place: self.place_of(at),
            who: None,
        })
    }

    /// Where a token stands in the file. There is none after the last one, which ends the file.
    pub fn place_of(&self, at: usize) -> Place
        ensures { (t : Token) (rest : List Token) → tokens_from self.now at ≡ t ∷ rest → result ≡ t.place }
    {
        match self.tokens.items.as_slice().get(at) {
            Some(token) => token.place,
            None => Place { line: 1, col: 1 },
        }
    }

    /// Whether the file ends here.
    pub fn is_end(&self, at: usize) -> bool
        ensures { IsTrue result ↔ Ends (tokens_from self.now at) }
    {
        match self.tokens.items.as_slice().get(at) {
            Some(token) => matches!(token.kind, Kind::Last),
            None => false,
        }
    }

    // Whether the name is spelled so.
    fn is_spelled(&self, name: NameId, word: &[u8]) -> bool
        ensures { IsTrue result ↔ (slice_get (names_of self.now) name.0 ≡ Some word.now) }
    {
        (name.0 as usize) < self.names.len() && self.names.at(name) == word
    }

    // Whether the word is no keyword.
    fn is_name(&self, name: NameId) -> bool
        ensures { IsTrue result ↔ ((word : List ℕ) × (slice_get (names_of self.now) name.0 ≡ Some word) × IsName word) }
    {
        (name.0 as usize) < self.names.len() && !is_keyword(self.names.at(name))
    }
}
