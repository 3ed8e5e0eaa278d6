//! Parts of a line that others follow.

ghost use Rattle.std.specs.Prelude.{◌≡◌, false, IfSome};
ghost use Rattle.std.specs.Fmt.{signed_decimal};
ghost use Rattle.transcript.specs.Books.{words};
ghost use Rattle.transcript.specs.Text.{name_text, process_text};
ghost use Rattle.event_reader.specs.Known.{AreWords, HasName, HasProcess, IsSmall, IsInt};
ghost use Rattle.event_reader.specs.Bodies.{session_text};
ghost use Rattle.event_reader.specs.Readings.{IsFront, FindsFronts};
ghost use Rattle.chor_lexer.specs.Lexeme.{is_word_byte};

use crate::fields::split;
use crate::named::{name_of, process_of, session_of};
use crate::numbers::int_of;
use chor_base::NameId;
use transcript::Book;

// The process before the first space, and what follows the space.
pub fn process_before<'a>(bytes: &'a [u8], book: &Book) -> Option<(u32, &'a [u8])>
    requires { AreWords (words book.now).names }
    ensures found { IfSome result (IsFront (HasProcess (words book.now)) (process_text (words book.now)) 32 bytes.now) }
    ensures all { FindsFronts (HasProcess (words book.now)) (process_text (words book.now)) 32 bytes.now result }
{
    let (field, rest) = split(bytes, b' ')?;
    Some((process_of(field, book)?, rest))
}

// The name before the first such byte, and what follows that byte, which stands in no name.
pub fn name_before<'a>(bytes: &'a [u8], end: u8, book: &Book) -> Option<(NameId, &'a [u8])>
    requires words { AreWords (words book.now).names }
    requires end { is_word_byte end ≡ false }
    ensures found { IfSome result (IsFront (HasName (words book.now)) (name_text (words book.now)) end bytes.now) }
    ensures all { FindsFronts (HasName (words book.now)) (name_text (words book.now)) end bytes.now result }
{
    let (field, rest) = split(bytes, end)?;
    Some((name_of(field, book)?, rest))
}

// The session before the first space, and what follows the space.
pub fn session_before(bytes: &[u8]) -> Option<(u32, &[u8])>
    ensures found { IfSome result (IsFront IsSmall session_text 32 bytes.now) }
    ensures all { FindsFronts IsSmall session_text 32 bytes.now result }
{
    let (field, rest) = split(bytes, b' ')?;
    Some((session_of(field)?, rest))
}

// The number before the first space, and what follows the space.
pub fn int_before(bytes: &[u8]) -> Option<(i64, &[u8])>
    ensures found { IfSome result (IsFront IsInt signed_decimal 32 bytes.now) }
    ensures all { FindsFronts IsInt signed_decimal 32 bytes.now result }
{
    let (field, rest) = split(bytes, b' ')?;
    Some((int_of(field)?, rest))
}
