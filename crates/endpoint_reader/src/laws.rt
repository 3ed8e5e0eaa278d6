//! What tokens say.

ghost use Rattle.std.specs.Prelude.{◌≡◌, ℕ, List, map, true};
ghost use Rattle.chor_lexer.specs.declared.token.Token.{Token};
ghost use Rattle.chor_lexer.specs.Lexeme.{Lexeme};
ghost use Rattle.chor_lexer.specs.Tokens.{AreSpelled};
ghost use Rattle.endpoint_reader.specs.declared.input.Input.{Input as AnyInput};
ghost use Rattle.endpoint_reader.specs.There.{all_there};
ghost use Rattle.endpoint_reader.specs.Tokens.{lexeme_of};

/// Tokens whose words and texts have their numbers in the tables are those of the file.
pub fn tokens_are_lexemes()
    ensures { (i : AnyInput) (ls : List Lexeme) → AreSpelled i.names.now i.texts.now i.tokens.now.items ls → map (lexeme_of i) i.tokens.now.items ≡ ls }
{}

/// Their words and texts have their numbers in the tables.
pub fn tokens_are_known()
    ensures { (names texts : List (List ℕ)) (ts : List Token) (ls : List Lexeme) → AreSpelled names texts ts ls → all_there names texts ts ≡ true }
{}
