//! The last line of a transcript.

ghost use Rattle.std.specs.Prelude.{◌≡◌, ◌++◌, OnOk, OnErr};
ghost use Rattle.transcript.specs.Closing.{lane_text, why_text, stuck_text};
ghost use Rattle.transcript.specs.Books.{words};

use crate::book::Book;
use crate::line::{put_doing, put_lane, put_spaced_name};
use chor_base::{Memory, NameId, Why, put_bytes, put_number};
use std::alloc::Global;

/// Appends what is said of a run that is stuck after so many events, without a line's end: the first
/// process that hasn't ended, and why it waits.
pub fn print_stuck(
    alloc: Global,
    number: u64,
    waiting: (u32, Why),
    book: &Book,
    out: &mut Vec<u8>,
) -> Result<(), Memory>
    ensures ok { OnOk result (out.new.items ≡ out.old.items ++ stuck_text (words book.now) number waiting.0 waiting.1) }
    ensures err { OnErr result (out.new.items ≡ out.old.items) }
{
    let mut line = Vec::new(alloc);
    put_stuck(&mut line, alloc, number, waiting, book)?;
    out.extend_from_slice(line.as_slice())?;
    Ok(())
}

// Appends that line, or some of it where there is no memory.
fn put_stuck(
    line: &mut Vec<u8>,
    alloc: Global,
    number: u64,
    waiting: (u32, Why),
    book: &Book,
) -> Result<(), Memory>
    ensures { OnOk result (line.new.items ≡ line.old.items ++ stuck_text (words book.now) number waiting.0 waiting.1) }
{
    let (pid, why) = waiting;
    put_bytes(line, b"stuck ".as_slice())?;
    put_number(line, alloc, number)?;
    put_doing(line, alloc, book, b" ".as_slice(), pid)?;
    put_why(line, alloc, why, book)
}

// Appends why a process waits.
fn put_why(line: &mut Vec<u8>, alloc: Global, why: Why, book: &Book) -> Result<(), Memory>
    ensures { OnOk result (line.new.items ≡ line.old.items ++ why_text (words book.now) why) }
{
    match why {
        Why::Empty(sid, from, to) => {
            put_queue(line, alloc, b"empty".as_slice(), (sid, from, to), book)
        }
        Why::Wrong(sid, from, to) => {
            put_queue(line, alloc, b"wrong".as_slice(), (sid, from, to), book)
        }
        Why::Full(sid, from, to) => {
            put_queue(line, alloc, b"full".as_slice(), (sid, from, to), book)
        }
        Why::Absent(channel, role) => {
            put_bytes(line, b"absent".as_slice())?;
            put_spaced_name(line, book, channel)?;
            put_spaced_name(line, book, role)
        }
    }
}

// Appends what is wrong with a queue, and which it is.
fn put_queue(
    line: &mut Vec<u8>,
    alloc: Global,
    state: &[u8],
    lane: (u32, NameId, NameId),
    book: &Book,
) -> Result<(), Memory>
    ensures { OnOk result (line.new.items ≡ line.old.items ++ state.now ++ lane_text (words book.now) lane.0 lane.1 lane.2) }
{
    put_bytes(line, state)?;
    put_lane(line, alloc, lane, book)
}
