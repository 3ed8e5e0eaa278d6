//! Whether names are words.

ghost use Rattle.std.specs.Prelude.{◌≡◌, ◌↔◌, IsTrue};
ghost use Rattle.std.specs.List.{list_all};
ghost use Rattle.chor_lexer.specs.Lexeme.{is_letter, is_word_byte, IsLexeme, word as Spelled};
ghost use Rattle.event_reader.specs.Known.{AreWords};

use chor_base::{NameId, Names};

/// Whether all names are words of a source, as those of each file are.
pub fn are_words(names: &Names) -> bool
    ensures { IsTrue result ↔ AreWords names.now }
{
    for number in 0..names.len() {
        if !is_word(names.at(NameId(number as u32))) {
            return false;
        }
    }
    true
}

// A letter, and then bytes of words.
fn is_word(bytes: &[u8]) -> bool
    ensures { IsTrue result ↔ IsLexeme (Spelled bytes.now) bytes.now }
{
    let Some((first, rest)) = bytes.split_first() else {
        return false;
    };
    is_letter(*first) && has_word_bytes(rest)
}

// Only bytes of words.
fn has_word_bytes(bytes: &[u8]) -> bool
    ensures { result ≡ list_all is_word_byte bytes.now }
{
    bytes.iter().all(|b| is_word_byte(*b))
}

// A byte that begins a word.
fn is_letter(byte: u8) -> bool
    ensures { result ≡ is_letter byte }
{
    byte.is_ascii_alphabetic() || byte == b'_'
}

// A byte of a word.
fn is_word_byte(byte: u8) -> bool
    ensures { result ≡ is_word_byte byte }
{
    byte.is_ascii_alphanumeric() || byte == b'_'
}
