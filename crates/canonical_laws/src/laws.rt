//! What holds of the canonical text of all sources.

ghost use Rattle.std.specs.Prelude.{◌≡◌, ℕ, true, List};
ghost use Rattle.chor_base.specs.Words.{AllDistinct};
ghost use Rattle.chor_lexer.specs.declared.token.Token.{Token};
ghost use Rattle.chor_lexer.specs.Lexeme.{Symbol, Lexeme};
ghost use Rattle.chor_lexer.specs.Spelling.{IsSource, SpellAll};
ghost use Rattle.chor_lexer.specs.Tokens.{IsTokens, AreSpelled, AreTokensOf};
ghost use Rattle.chor_tree.specs.declared.file.File.{File};
ghost use Rattle.chor_tree.specs.Source.{Source, source_of};
ghost use Rattle.chor_base.specs.declared.rule.Place.{Place};
ghost use Rattle.chor_base.specs.declared.rule.Rule.{Rule};
ghost use Rattle.chor_lexer.specs.Refusal.{Refuses};
ghost use Rattle.chor_tree.specs.Same.{same_files};
ghost use Rattle.source_grammar.specs.Faults.{IsFirstFault, IsWithin};
ghost use Rattle.chor_print.specs.Text.{canonical_text};
ghost use Rattle.canonical_laws.specs.Terms.{AllTerms};
ghost use Rattle.canonical_laws.specs.Symbols.{source_symbols};
ghost use Rattle.canonical_laws.specs.ReadsBack.{DeriveSame, HasSymbols, IsRead, IsReadWith, IsReadFrom, IsReadAgain, ReadsBack};
ghost use Rattle.canonical_laws.specs.Anew.{SayTheSame, IsReadAnew};

/// What the canonical text of a source spells derives the source again, but for places, and keeps
/// the limits: `written` are the tokens that it was derived from, within the limits, and `ts` any
/// tokens that spell the symbols of its text.
pub fn symbols_read_back()
    ensures { (names texts : List (List ℕ)) (written ts : List Token) (s : Source) → AllDistinct names → AllDistinct texts → IsWithin names written s → AllTerms (IsSource names texts) s → SpellAll names texts ts (source_symbols names texts s) → DeriveSame names ts s }
{}

/// The canonical text of a file that was read from some bytes with empty tables has tokens, and they
/// say the symbols of its source.
pub fn text_has_symbols()
    ensures { (bytes : List ℕ) (written : List Token) (f : File) → IsReadFrom bytes written f → HasSymbols (canonical_text f) (source_symbols f.names f.texts (source_of f)) }
{}

/// The canonical text of a file that was read from some bytes with empty tables reads back with the
/// file's own: it has tokens, which have numbers in these tables, and whatever tokens it has there
/// derive the file's source again, but for places, and keep the limits. Reading it adds nothing to
/// the tables.
pub fn text_reads_back()
    ensures some { (bytes : List ℕ) (written : List Token) (f : File) → IsReadFrom bytes written f → ReadsBack f }
    ensures all { (bytes : List ℕ) (written ts : List Token) (f : File) (ls : List Lexeme) → IsReadFrom bytes written f → IsTokens (canonical_text f) ls → AreSpelled f.names f.texts ts ls → DeriveSame f.names ts (source_of f) }
    ensures again { (bytes : List ℕ) (written ts : List Token) (f : File) (names texts : List (List ℕ)) → IsReadFrom bytes written f → AreTokensOf (canonical_text f) f.names f.texts names texts ts → IsReadAgain f names texts ts }
{}

/// Whatever tokens spell the same symbols in other tables derive a source that says the same,
/// within the same limits: the numbers of words and texts don't matter.
pub fn numbers_are_free()
    ensures { (names texts other_names other_texts : List (List ℕ)) (ts us : List Token) (ss : List Symbol) (s : Source) → SpellAll names texts ts ss → SpellAll other_names other_texts us ss → IsWithin names ts s → SayTheSame names texts other_names other_texts us s }
{}

/// The canonical text of a file that was read from some bytes is read again, whatever was in the
/// tables before, then and now: it is cut into tokens, they derive, within the limits, a source that
/// says the same, and so they have no first fault; and the file that they are says the same.
pub fn text_reads_anew()
    ensures cut { (f : File) (rule : Rule) (place : Place) → IsRead f → Refuses (canonical_text f) rule place → ⊥ }
    ensures source { (f : File) (old_names old_texts names texts : List (List ℕ)) (us : List Token) → IsRead f → AreTokensOf (canonical_text f) old_names old_texts names texts us → IsReadAnew f names texts us }
    ensures taken { (f : File) (old_names old_texts names texts : List (List ℕ)) (us : List Token) (rule : Rule) (place : Place) → IsRead f → AreTokensOf (canonical_text f) old_names old_texts names texts us → IsFirstFault names us rule place → ⊥ }
    ensures file { (f g : File) (old_names old_texts : List (List ℕ)) (us : List Token) → IsRead f → IsReadWith old_names old_texts (canonical_text f) us g → same_files f g ≡ true }
{}

/// Canonical text is settled: files that say the same have the same canonical text, and so the file
/// that is read from a canonical text, whatever was in the tables, has that very text.
pub fn text_is_settled()
    ensures same { (f g : File) → same_files f g ≡ true → canonical_text f ≡ canonical_text g }
    ensures settled { (f g : File) (old_names old_texts : List (List ℕ)) (us : List Token) → IsRead f → IsReadWith old_names old_texts (canonical_text f) us g → canonical_text g ≡ canonical_text f }
{}
