//! Tokens, one by one.

ghost use Rattle.std.specs.Prelude.{◌≡◌, ◌-◌, ◌+◌, ◌<◌, [], length, IfSome, IfNone, IfOk, IfErr, OnOk, Some, true, false};
ghost use Rattle.chor_base.specs.declared.rule.Rule.TheVariants.{E1, E4};
ghost use Rattle.chor_base.specs.Writing.{name_in};
ghost use Rattle.chor_lexer.specs.Tokens.{is_last as last_kind};
ghost use Rattle.grammar.specs.Classes.{a_mark, a_word, a_name, exactly, the_end, is_of};
ghost use Rattle.grammar.specs.Grammars.{one, within, is_full};
ghost use Rattle.grammar.specs.Readers.{Reads, Halts, Refuses, Stands, Lacks, HasOne, Missed, ReadsIn, HaltsIn};
ghost use Rattle.endpoint_grammar.specs.Grammar.{NAME, word as word_of, mark as mark_of};
ghost use Rattle.endpoint_grammar.specs.Values.{rules};
ghost use Rattle.endpoint_reader.specs.Tokens.{from, symbol_of, named, IsFirst, IsAt, EndsThere, IsTold};
ghost use Rattle.endpoint_reader.specs.There.{kind_there};
ghost use Rattle.endpoint_reader.specs.Known.{IsThere};

use crate::input::{Input, Named};
use chor_base::{Denied, NameId, Refusal, Rule};
use chor_lexer::{Kind, Mark, Token, is_keyword};

fn is_last(kind: Kind) -> bool
    ensures { result ≡ last_kind kind }
{
    matches!(kind, Kind::Last)
}

impl Input<'_> {
    // The token that stands here; the last one where none does.
    fn first_from(&self, at: usize) -> Token
        ensures { IsFirst self.now at result }
    {
        let count = self.tokens.items.len();
        if at < count {
            return *self.tokens.items.at(at);
        }
        *self.tokens.items.at(count - 1)
    }

    /// The token that stands here, unless the file ends here.
    pub fn token_at(&self, at: usize) -> Option<Token>
        ensures found { IfSome result (λ t. IsAt self.now at t) }
        ensures inside { IfSome result (λ t. at + 1 < length self.now.tokens.now.items) }
        ensures other { IfSome result (λ t. last_kind t.kind ≡ false) }
        ensures known { IfSome result (λ t. kind_there self.now.names.now self.now.texts.now t.kind ≡ true) }
        ensures none { IfNone result (EndsThere self.now at) }
    {
        let token = self.first_from(at);
        if is_last(token.kind) {
            None
        } else {
            Some(token)
        }
    }

    // The bytes of a word: none where it isn't in the table.
    fn word_of(&self, name: NameId) -> &[u8]
        ensures { result.now ≡ name_in self.now.names.now name }
    {
        if (name.0 as usize) < self.names.len() {
            self.names.at(name)
        } else {
            b"".as_slice()
        }
    }

    /// Whether it is this word.
    pub fn is_word(&self, kind: Kind, word: &[u8]) -> bool
        ensures { result ≡ is_of (a_word word.now) (symbol_of self.now kind) }
    {
        match kind {
            Kind::Word(name) => word == self.word_of(name),
            _ => false,
        }
    }

    // Whether it is this number.
    fn is_number(&self, kind: Kind, number: u64) -> bool
        ensures { result ≡ is_of (exactly number) (symbol_of self.now kind) }
    {
        match kind {
            Kind::Number(found) => number == found.unsigned_abs(),
            _ => false,
        }
    }

    /// Whether it is this mark.
    pub fn is_mark(&self, kind: Kind, mark: Mark) -> bool
        ensures { result ≡ is_of (a_mark mark) (symbol_of self.now kind) }
    {
        match kind {
            Kind::Mark(found) => mark.spelling() == found.spelling(),
            _ => false,
        }
    }

    /// Whether it is a name.
    pub fn is_name(&self, kind: Kind) -> bool
        ensures { result ≡ is_of a_name (symbol_of self.now kind) }
    {
        match kind {
            Kind::Word(name) => !is_keyword(self.word_of(name)),
            _ => false,
        }
    }

    /// The name that stands here, and the place after it.
    pub fn name_at(&self, at: usize) -> Option<(Named, usize)>
        ensures found { IfSome result (λ x. Stands a_name (named self.now x.0) (from self.now at) (from self.now x.1)) }
        ensures known { IfSome result (λ x. IsThere self.now x.0) }
        ensures none { IfNone result (Lacks a_name (from self.now at)) }
    {
        let token = self.token_at(at)?;
        let Kind::Word(name) = token.kind else {
            return None;
        };
        if !self.is_name(token.kind) {
            return None;
        }
        let place = token.place;
        Some((Named { name, place }, at + 1))
    }

    /// The place after this word, if it stands here.
    pub fn after_word(&self, at: usize, word: &[u8]) -> Option<usize>
        ensures found { IfSome result (λ after. HasOne (a_word word.now) (from self.now at) (from self.now after)) }
        ensures none { IfNone result (Lacks (a_word word.now) (from self.now at)) }
    {
        let token = self.token_at(at)?;
        if self.is_word(token.kind, word) {
            Some(at + 1)
        } else {
            None
        }
    }

    /// The place after this mark, if it stands here.
    pub fn after_mark(&self, at: usize, mark: Mark) -> Option<usize>
        ensures found { IfSome result (λ after. HasOne (a_mark mark) (from self.now at) (from self.now after)) }
        ensures none { IfNone result (Lacks (a_mark mark) (from self.now at)) }
    {
        let token = self.token_at(at)?;
        if self.is_mark(token.kind, mark) {
            Some(at + 1)
        } else {
            None
        }
    }

    /// The refusal of the token that stands here.
    pub fn refused(&self, rule: Rule, at: usize) -> Denied
        ensures refuses { Refuses rule (from self.now at) result }
        ensures told { IsTold result }
    {
        let token = self.first_from(at);
        Denied::Refused(Refusal {
            rule,
            place: token.place,
            who: None,
        })
    }

    // The place after this number, if it stands here.
    fn after_number(&self, at: usize, number: u64) -> Option<usize>
        ensures found { IfSome result (λ after. HasOne (exactly number) (from self.now at) (from self.now after)) }
        ensures none { IfNone result (Lacks (exactly number) (from self.now at)) }
    {
        let token = self.token_at(at)?;
        if self.is_number(token.kind, number) {
            Some(at + 1)
        } else {
            None
        }
    }

    /// The place after this number, which has to stand here.
    pub fn take_number(&self, at: usize, number: u64) -> Result<usize, Denied>
        ensures reads { IfOk result (λ after. Reads rules (one (exactly number)) (from self.now at) tt (from self.now after)) }
        ensures halts { IfErr result (Halts rules (one (exactly number)) (from self.now at)) }
    {
        match self.after_number(at, number) {
            Some(after) => Ok(after),
            None => Err(self.refused(Rule::E1, at)),
        }
    }

    /// The file has to end here.
    pub fn take_end(&self, at: usize) -> Result<(), Denied>
        ensures reads { OnOk result (Reads rules (one the_end) (from self.now at) tt []) }
        ensures halts { IfErr result (Halts rules (one the_end) (from self.now at)) }
    {
        match self.token_at(at) {
            Some(_) => Err(self.refused(Rule::E1, at)),
            None => Ok(()),
        }
    }

    /// The name that has to stand here, and the place after it.
    pub fn take_name(&self, at: usize) -> Result<(Named, usize), Denied>
        ensures reads { IfOk result (λ x. Reads rules NAME (from self.now at) (named self.now x.0) (from self.now x.1)) }
        ensures known { IfOk result (λ x. IsThere self.now x.0) }
        ensures halts { IfErr result (Halts rules NAME (from self.now at)) }
    {
        match self.name_at(at) {
            Some(found) => Ok(found),
            None => Err(self.refused(Rule::E1, at)),
        }
    }

    /// The name that has to stand here where there is room for it, and the place after it.
    pub fn take_item(&self, at: usize, room: usize) -> Result<(Named, usize), Denied>
        ensures reads { IfOk result (λ x. Reads rules (within E4 (Some room) NAME) (from self.now at) (named self.now x.0) (from self.now x.1)) }
        ensures known { IfOk result (λ x. IsThere self.now x.0) }
        ensures halts { IfErr result (Halts rules (within E4 (Some room) NAME) (from self.now at)) }
    {
        match self.name_at(at) {
            Some(found) if room > 0 => Ok(found),
            Some(_) => Err(self.refused(Rule::E4, at)),
            None => Err(self.refused(Rule::E1, at)),
        }
    }

    /// The place after this word, which has to stand here.
    pub fn take_word(&self, at: usize, word: &[u8]) -> Result<usize, Denied>
        ensures reads { IfOk result (λ after. Reads rules (word_of word.now) (from self.now at) tt (from self.now after)) }
        ensures halts { IfErr result (Halts rules (word_of word.now) (from self.now at)) }
    {
        match self.after_word(at, word) {
            Some(after) => Ok(after),
            None => Err(self.refused(Rule::E1, at)),
        }
    }

    /// The place after this mark, which has to stand here.
    pub fn take_mark(&self, at: usize, mark: Mark) -> Result<usize, Denied>
        ensures reads { IfOk result (λ after. Reads rules (mark_of mark) (from self.now at) tt (from self.now after)) }
        ensures halts { IfErr result (Halts rules (mark_of mark) (from self.now at)) }
        ensures missed { IfErr result (Missed E1 (a_mark mark) (from self.now at)) }
    {
        match self.after_mark(at, mark) {
            Some(after) => Ok(after),
            None => Err(self.refused(Rule::E1, at)),
        }
    }

    /// The place after this mark, which has to stand here, within an expression that may have so many more tokens.
    pub fn take_mark_in(&self, at: usize, room: usize, mark: Mark) -> Result<usize, Denied>
        ensures reads { IfOk result (λ after. ReadsIn rules E4 (Some room) (mark_of mark) (from self.now at) tt (Some (room - 1)) (from self.now after)) }
        ensures halts { IfErr result (HaltsIn rules E4 (Some room) (mark_of mark) (from self.now at)) }
    {
        match self.after_mark(at, mark) {
            Some(after) if room > 0 => Ok(after),
            Some(_) => Err(self.refused(Rule::E4, at)),
            None => Err(self.refused(Rule::E1, at)),
        }
    }

    /// What begins here may come where there is room for more of it.
    pub fn check_room(&self, at: usize, room: usize) -> Result<(), Denied>
        ensures room { OnOk result (is_full (Some room) ≡ false) }
        ensures some { OnOk result (0 < room) }
        ensures full { IfErr result (λ d. (is_full (Some room) ≡ true) × Refuses E4 (from self.now at) d) }
    {
        if room == 0 {
            return Err(self.refused(Rule::E4, at));
        }
        Ok(())
    }
}
