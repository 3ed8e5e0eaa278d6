//! The line that closes a replay.

ghost use Rattle.std.specs.Prelude.{◌↔◌, ◌+◌, ◌<◌, ◌^◌, IsTrue};
ghost use Rattle.event_files.specs.Fronts.{IsClosing, Judges};
ghost use Rattle.transcript_lines.specs.Lines.{lines_of};

use replay::{ReplayFault, Replayed};
use transcript_lines::{Last, first_line, last_of};

/// Judges what follows the events that were replayed: nothing, or one line that closes the run.
pub fn judge(rest: &[u8], replayed: Replayed) -> Result<Replayed, ReplayFault>
    requires { replayed.count + 1 < 2 ^ 64 }
    ensures { Judges replayed (lines_of rest.now) result }
{
    let Some((line, after)) = first_line(rest) else {
        return Ok(replayed);
    };
    if after.is_empty() && closes(line, replayed) {
        return Ok(replayed);
    }
    Err(ReplayFault::Unmatched(replayed.count + 1))
}

// Whether the line is `end` with the number of events where they have ended, or `limit` with it.
fn closes(line: &[u8], replayed: Replayed) -> bool
    requires { replayed.count < 2 ^ 64 }
    ensures { IsTrue result ↔ IsClosing replayed line.now }
{
    match last_of(line) {
        Some(Last::End(count)) => replayed.ended && count == replayed.count,
        Some(Last::Limit(count)) => count == replayed.count,
        None => false,
    }
}
