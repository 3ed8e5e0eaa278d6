//! The header of a source file.

ghost use Rattle.std.specs.Prelude.{◌≡◌};
ghost use Rattle.chor_tree.specs.Headers.{no_header};

use chor_base::Place;

/// What a file says at its beginning: `chor 2;`, and maybe `capacity N;` after it.
#[derive(Clone, Copy, PartialEq, Eq)]
pub struct Header {
    /// The version of the language: 1 where nothing is said.
    pub version: u32,
    /// How many messages a queue may hold; any number of them where nothing is said.
    pub capacity: Option<u32>,
    /// Where the word `capacity` stands, or the first place of the file without one.
    pub place: Place,
}

impl Header {
    /// The header of a file that begins without one.
    pub fn none() -> Header
        ensures { result ≡ no_header }
    {
        Header {
            version: 1,
            capacity: None,
            place: Place { line: 1, col: 1 },
        }
    }
}
