//! The tokens of the text of endpoint programs.

ghost use Rattle.endpoint_laws.specs.Spelled.{TextHasSymbols, TokensSayThem, TextIsTaken};

/// The text of endpoint programs has tokens, and these say the symbols of the programs and no
/// others, whatever is in the tables of names and texts that they get their numbers from. So the
/// rules of tokens never refuse it.
///
/// The programs are those that endpoint files can spell: each name that stands in them is one, and no
/// expression has a negative number, a text that is too long or an endpoint.
pub fn text_has_symbols()
    ensures some { TextHasSymbols }
    ensures all { TokensSayThem }
    ensures taken { TextIsTaken }
{}
