//! What readers read.

ghost use Rattle.std.specs.Prelude.{IsTrue};
ghost use Rattle.endpoint_reader.specs.There.{all_there};

use chor_base::{NameId, Names, Place, Texts};
use chor_lexer::Tokens;

/// A name and where it stands.
#[derive(Clone, Copy, PartialEq, Eq)]
pub struct Named {
    pub name: NameId,
    pub place: Place,
}

/// The tokens of a file, and the tables in which its words and texts have their numbers.
#[derive(Drop)]
pub struct Input<'a> {
    pub tokens: &'a Tokens,
    pub names: &'a Names,
    pub texts: &'a Texts,
    pub ghost known: { IsTrue (all_there names.now texts.now tokens.now.items) },
}
