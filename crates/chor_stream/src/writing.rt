//! Writing lines to a sink.

ghost use Rattle.std.specs.Prelude.{◌≡◌, ◌≤◌, ◌+◌, ◌<◌, ◌^◌, IfOk, length};
ghost use Rattle.transcript.specs.Books.{words};
ghost use Rattle.chor_stream.specs.Lines.{entry_lines, Finishes};

use crate::finish::Finished;
use chor_base::{Entry, Memory};
use chor_io::{Put, Sink};
use std::alloc::Global;
use transcript::{Book, Lines};

/// Writes the lines of entries that come after so many others.
pub fn write_lines<K: Sink>(
    alloc: Global,
    count: u64,
    entries: &[Entry],
    book: &Book<'_>,
    out: &mut K,
) -> Finished
    requires { count + length entries.now < 2 ^ 64 }
    ensures lines { Finishes result (K.state out.old) (K.state out.new) (entry_lines (words book.now) (count + 1) entries.now) }
    ensures rises { (K.state out.old).faults ≤ (K.state out.new).faults }
{
    let Ok(lines) = lines_of(alloc, count, entries, book) else {
        return Finished::Memory;
    };
    match out.put(lines.as_slice()) {
        Put::All => Finished::Written,
        Put::Failed => Finished::Failed,
    }
}

// The lines of entries that come after so many others.
fn lines_of(alloc: Global, count: u64, entries: &[Entry], book: &Book<'_>) -> Result<Lines, Memory>
    requires { count + length entries.now < 2 ^ 64 }
    ensures { IfOk result (λ lines. lines.text.items ≡ entry_lines (words book.now) (count + 1) entries.now) }
{
    let mut lines = Lines::after(alloc, count)?;
    lines.put(entries, book)?;
    Ok(lines)
}
