//! A word and its bytes.

ghost use Rattle.std.specs.Prelude.{◌≡◌, ◌≢◌, true, false};

use chor_base::Word;

/// Whether the word has these bytes.
pub fn is_word(word: &Word, bytes: &[u8]) -> bool
    ensures is { result ≡ true → word.now ≡ bytes.now }
    ensures not { result ≡ false → word.now ≢ bytes.now }
{
    word.as_slice() == bytes
}
