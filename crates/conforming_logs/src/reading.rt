//! The lines of events at the front of a file.

ghost use Rattle.std.specs.Prelude.{◌≡◌, ◌≤◌, ◌↔◌, ◌^◌, IsTrue, List as AList, length};
ghost use Rattle.chor_base.specs.declared.event.Event.{Event};
ghost use Rattle.conform.specs.ByRole.{HasEndedByRole};
ghost use Rattle.conform.specs.Judged.{IsFit};
ghost use Rattle.conform.specs.Progress.{IsAfter};
ghost use Rattle.conforming_logs.specs.Fronts.{IsAnswered};
ghost use Rattle.event_reader.specs.Known.{IsBook};
ghost use Rattle.transcript.specs.Books.{words};

use chor_tree::File;
use conform::Progress;
use event_reader::{LineFault, read_event};
use replay::{ReplayFault, Replayed};
use std::alloc::Global;
use transcript::Book;
use transcript_lines::first_line;

// Follows the events whose texts the first lines are, each as soon as it is read, as many as there are.
// The bytes of the other lines are left.
pub fn follow_lines<'a>(
    alloc: Global,
    file: &File,
    book: &Book,
    bytes: &'a [u8],
) -> Result<(Replayed, &'a [u8]), ReplayFault>
    requires fit { IsFit file.now }
    requires book { IsBook (words book.now) }
    requires few { length bytes.now ≤ 2 ^ 26 }
    ensures { IsAnswered (words book.now) file.now bytes.now result }
{
    let mut progress = Progress::new(alloc, file)?;
    let mut count = 0;
    let mut rest = bytes;
    while let Some((line, after)) = first_line(rest) {
        let event = match read_event(alloc, line, count + 1, book) {
            Ok(event) => event,
            Err(LineFault::BadLine) => return Ok((replayed(&progress, file, count), rest)),
            Err(LineFault::Memory) => return Err(ReplayFault::Memory),
        };
        if !progress.follow(file, &event)? {
            return Err(ReplayFault::Unmatched(count + 1));
        }
        count += 1;
        rest = after;
    }
    Ok((replayed(&progress, file, count), rest))
}

// What is told of so many events.
fn replayed(progress: &Progress, file: &File, count: u64) -> Replayed
    requires { IsFit file.now }
    ensures count { result.count ≡ count }
    ensures ended { (h : AList Event) → IsAfter file.now h progress.now → IsTrue result.ended ↔ HasEndedByRole file.now h }
{
    Replayed {
        count,
        ended: progress.has_ended(file),
    }
}
