//! The last line of a transcript.

ghost use Rattle.std.specs.Prelude.{◌≡◌, ◌≢◌, ◌++◌, ℕ, List, MatchOption, codes};
ghost use Rattle.event_reader.specs.Readings.{IsReading};
ghost use Rattle.transcript_lines.specs.Last.{HasCount, last_text};

use event_reader::number_of;

/// What the last line of a transcript says, with the number of events before it.
#[derive(Clone, Copy, PartialEq, Eq)]
pub enum Last {
    /// The run has ended.
    End(u64),
    /// The run stopped at its number of steps.
    Limit(u64),
}

/// What a last line says, which is `end N` or `limit N`, the number in its one spelling.
pub fn last_of(line: &[u8]) -> Option<Last>
    ensures { IsReading HasCount last_text line.now result }
{
    if let Some(digits) = after_end(line) {
        return Some(Last::End(number_of(digits)?));
    }
    let digits = after_limit(line)?;
    Some(Last::Limit(number_of(digits)?))
}

fn after_end(line: &[u8]) -> Option<&[u8]>
    ensures { MatchOption result ((rest : List ℕ) → line.now ≢ codes "end " ++ rest) (λ rest. line.now ≡ codes "end " ++ rest.now) }
{
    match line {
        [b'e', b'n', b'd', b' ', rest @ ..] => Some(rest),
        _ => None,
    }
}

fn after_limit(line: &[u8]) -> Option<&[u8]>
    ensures { MatchOption result ((rest : List ℕ) → line.now ≢ codes "limit " ++ rest) (λ rest. line.now ≡ codes "limit " ++ rest.now) }
{
    match line {
        [b'l', b'i', b'm', b'i', b't', b' ', rest @ ..] => Some(rest),
        _ => None,
    }
}
