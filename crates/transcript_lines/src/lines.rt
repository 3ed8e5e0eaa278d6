//! Lines, one after another.

ghost use Rattle.std.specs.Prelude.{◌≡◌, ◌<◌, ◌∷◌, ◌==◌, [], not, length, IfSome, MatchOption};
ghost use Rattle.std.specs.List.{prefix_len};
ghost use Rattle.transcript_lines.specs.Lines.{lines_of};

/// The first line, without its line feed, and what follows it. `None` where no line is left. A line
/// may be empty, and a carriage return belongs to its line.
pub fn first_line(bytes: &[u8]) -> Option<(&[u8], &[u8])>
    ensures lines { MatchOption result (lines_of bytes.now ≡ []) (λ r. lines_of bytes.now ≡ r.0.now ∷ lines_of r.1.now) }
    ensures shorter { IfSome result (λ r. length r.1.now < length bytes.now) }
{
    if bytes.is_empty() {
        return None;
    }
    let (line, rest) = bytes.split_at(line_len(bytes));
    match rest.split_first() {
        Some((_, rest)) => Some((line, rest)),
        None => Some((line, rest)),
    }
}

// How many bytes stand before the first line feed.
fn line_len(bytes: &[u8]) -> usize
    ensures { result ≡ prefix_len (λ b. not (b == 10)) bytes.now }
{
    bytes.iter().take_while(|b| **b != b'\n').count()
}
