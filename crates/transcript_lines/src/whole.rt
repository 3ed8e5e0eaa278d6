//! Lines that a line feed ends.

ghost use Rattle.std.specs.Prelude.{◌≡◌};
ghost use Rattle.transcript_lines.specs.Whole.{whole_lines};

/// The bytes up to the last line feed. What follows it is the beginning of a line that broke off.
pub fn whole_lines(bytes: &[u8]) -> &[u8]
    ensures { result.now ≡ whole_lines bytes.now }
{
    let mut whole = bytes;
    while let [before @ .., last] = whole {
        if *last == b'\n' {
            return whole;
        }
        whole = before;
    }
    whole
}
