//! The last line of a run.

ghost use Rattle.std.specs.Prelude.{◌≡◌, ◌≤◌, ◌++◌, ◌∷◌, [], IfOk, OnOk};
ghost use Rattle.chor_stream.specs.Lines.{Finishes};
ghost use Rattle.endpoint_runs.specs.Runs.{close_of};
ghost use Rattle.transcript.specs.Books.{words};
ghost use Rattle.program_runs.specs.Transcripts.{closing_text};

use chor_base::{Memory, put_bytes, put_number};
use chor_io::{Put, Sink};
use chor_stream::Finished;
use endpoint_runs::Closed;
use std::alloc::Global;
use transcript::{Book, print_stuck};

/// Appends how a run of so many events is closed, without a line's end.
pub fn put_closing(
    text: &mut Vec<u8>,
    alloc: Global,
    count: u64,
    closed: Closed,
    book: &Book,
) -> Result<(), Memory>
    ensures { OnOk result (text.new.items ≡ text.old.items ++ closing_text (words book.now) count (close_of closed)) }
{
    match closed {
        Closed::Ended => {
            put_bytes(text, b"end ".as_slice())?;
            put_number(text, alloc, count)
        }
        Closed::Limit => {
            put_bytes(text, b"limit ".as_slice())?;
            put_number(text, alloc, count)
        }
        Closed::Stuck(pid, why) => print_stuck(alloc, count, (pid, why), book, text),
    }
}

/// Writes how a run of so many events is closed, with a line's end.
pub fn write_closing<K: Sink>(
    alloc: Global,
    count: u64,
    closed: Closed,
    book: &Book<'_>,
    out: &mut K,
) -> Finished
    ensures line { Finishes result (K.state out.old) (K.state out.new) (closing_text (words book.now) count (close_of closed) ++ 10 ∷ []) }
    ensures rises { (K.state out.old).faults ≤ (K.state out.new).faults }
{
    let Ok(line) = closing_line(alloc, count, closed, book) else {
        return Finished::Memory;
    };
    match out.put(line.as_slice()) {
        Put::All => Finished::Written,
        Put::Failed => Finished::Failed,
    }
}

// The last line of a run, with its end.
fn closing_line(
    alloc: Global,
    count: u64,
    closed: Closed,
    book: &Book<'_>,
) -> Result<Vec<u8>, Memory>
    ensures { IfOk result (λ line. line.items ≡ closing_text (words book.now) count (close_of closed) ++ 10 ∷ []) }
{
    let mut line = Vec::new(alloc);
    put_closing(&mut line, alloc, count, closed, book)?;
    line.push(b'\n')?;
    Ok(line)
}
