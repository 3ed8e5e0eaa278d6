//! How many lines a file has.

ghost use Rattle.std.specs.Prelude.{◌+◌, ◌<◌, ◌^◌, ◌↔◌, IsTrue};
ghost use Rattle.event_files.specs.FewLines.{HasFewLines};

use crate::closing::judge;
use replay::Replayed;
use transcript_lines::{first_line, whole_lines};

/// Whether a file has at most so many whole lines, where a last one that closes a run of so many events
/// isn't counted. What follows the last line feed is no whole line.
pub fn has_few_lines(bytes: &[u8], most: u64) -> bool
    requires { most + 1 < 2 ^ 64 }
    ensures { IsTrue result ↔ HasFewLines most bytes.now }
{
    let mut rest = whole_lines(bytes);
    for _ in 0..most {
        let Some((_, after)) = first_line(rest) else {
            return true;
        };
        rest = after;
    }
    let whole = Replayed {
        count: most,
        ended: true,
    };
    judge(rest, whole).is_ok()
}
