//! Tokens.

ghost use Rattle.std.specs.Prelude.{IsTrue, ◌<◌, ◌^◌, length};
ghost use Rattle.chor_lexer.specs.Tokens.{is_ended};

use crate::mark::Mark;
use chor_base::{List, NameId, Place};

/// What a token is.
#[derive(Clone, Copy)]
pub enum Kind {
    /// A keyword or a name, by its number.
    Word(NameId),
    /// A number. It is never negative.
    Number(i64),
    /// A text, by its number.
    Text(u32),
    /// A mark.
    Mark(Mark),
    /// The end of the file.
    Last,
}

/// A token and where it begins.
#[derive(Clone, Copy)]
pub struct Token {
    pub kind: Kind,
    pub place: Place,
}

/// The tokens of a file. The last one is `Last`, and no other is.
pub struct Tokens {
    pub items: List<Token>,
    pub ghost ended: { IsTrue (is_ended items) },
    pub ghost short: { length items < 2 ^ 32 },
}

impl Drop for Tokens {
    fn drop(self) {
        let Tokens { items: _ } = self;
    }
}
