//! Parts of a line between separating bytes.

ghost use Rattle.std.specs.Prelude.{◌≡◌, ◌≢◌, ◌++◌, ◌∷◌, ◌==◌, ℕ, List, not, IfSome, IfNone, MatchOption};
ghost use Rattle.std.specs.List.{prefix_len};
ghost use Rattle.event_reader.specs.Fields.{IsFree, BeginsWith};

// What stands before the first such byte, and all from that byte on.
pub fn field(bytes: &[u8], end: u8) -> (&[u8], &[u8])
    ensures parts { bytes.now ≡ result.0.now ++ result.1.now }
    ensures free { IsFree end result.0.now }
    ensures rest { BeginsWith end result.1.now }
{
    bytes.split_at(field_len(bytes, end))
}

// What stands before the first such byte, and what follows it.
pub fn split(bytes: &[u8], end: u8) -> Option<(&[u8], &[u8])>
    ensures some { IfSome result (λ r. (bytes.now ≡ r.0.now ++ end ∷ r.1.now) × IsFree end r.0.now) }
    ensures none { IfNone result (IsFree end bytes.now) }
{
    let (front, rest) = field(bytes, end);
    match rest {
        [_, rest @ ..] => Some((front, rest)),
        [] => None,
    }
}

// What follows this byte.
pub fn after(bytes: &[u8], byte: u8) -> Option<&[u8]>
    ensures { MatchOption result ((rest : List ℕ) → bytes.now ≢ byte ∷ rest) (λ rest. bytes.now ≡ byte ∷ rest.now) }
{
    match bytes {
        [first, rest @ ..] if *first == byte => Some(rest),
        _ => None,
    }
}

// How many bytes stand before the first such byte.
fn field_len(bytes: &[u8], end: u8) -> usize
    ensures { result ≡ prefix_len (λ b. not (b == end)) bytes.now }
{
    bytes.iter().take_while(|b| **b != end).count()
}
