//! Places.

ghost use Rattle.std.specs.Prelude.{◌≡◌, ◌+◌, ◌^◌, ◌<◌, ◌≤◌, length};
ghost use Rattle.chor_lexer.specs.Cut.{start, place_after};

use chor_base::Place;

// Where the first byte of a file stands.
pub fn first_place() -> Place
    ensures { result ≡ start }
{
    Place { line: 1, col: 1 }
}

// Where the byte after these stands.
pub fn place_after(place: Place, bytes: &[u8]) -> Place
    requires line { place.line + length bytes.now < 2 ^ 32 }
    requires col { place.col + length bytes.now < 2 ^ 32 }
    ensures place { result ≡ place_after place bytes.now }
    ensures line { result.line ≤ place.line + length bytes.now }
    ensures col { result.col ≤ place.col + length bytes.now }
{
    let mut now = place;
    for byte in bytes {
        if *byte == b'\n' {
            now.line += 1;
            now.col = 1;
        } else {
            now.col += 1;
        }
    }
    now
}
