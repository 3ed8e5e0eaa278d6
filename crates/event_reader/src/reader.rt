//! Lines of a transcript.

ghost use Rattle.transcript.specs.Books.{words};
ghost use Rattle.transcript.specs.Text.{event_text};
ghost use Rattle.event_reader.specs.Known.{AreWords, HasEvent};
ghost use Rattle.event_reader.specs.Readings.{IsAnswer};

use crate::bodies::event_of;
use crate::fault::LineFault;
use crate::fields::split;
use crate::kind::kind_of;
use crate::numbers::is_written;
use chor_base::Event;
use std::alloc::Global;
use transcript::Book;

/// The event whose text under this number the line is, without a line's end. `BadLine` comes where
/// the line is the text of no event with this number whose names and texts the book has.
pub fn read_event(alloc: Global, line: &[u8], number: u64, book: &Book) -> Result<Event, LineFault>
    requires { AreWords (words book.now).names }
    ensures { IsAnswer (HasEvent (words book.now)) (event_text (words book.now) number) line.now result }
{
    let Some((digits, rest)) = split(line, b' ') else {
        return Err(LineFault::BadLine);
    };
    if !is_written(number, digits) {
        return Err(LineFault::BadLine);
    }
    let Some((word, rest)) = split(rest, b' ') else {
        return Err(LineFault::BadLine);
    };
    let Some(kind) = kind_of(word) else {
        return Err(LineFault::BadLine);
    };
    event_of(alloc, kind, rest, book)
}
