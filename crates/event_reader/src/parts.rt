//! The parts of a start.

ghost use Rattle.std.specs.Prelude.{IfSome};
ghost use Rattle.std.specs.List.{AllByRecursion};
ghost use Rattle.transcript.specs.Books.{words};
ghost use Rattle.transcript.specs.Text.{parts_text};
ghost use Rattle.event_reader.specs.Known.{AreWords, HasPart};
ghost use Rattle.event_reader.specs.Fronts.{IsPartFront, FindsParts};
ghost use Rattle.event_reader.specs.Bodies.{part_text};
ghost use Rattle.event_reader.specs.Readings.{IsReading, IsAnswer};

use crate::fault::LineFault;
use crate::fields::{after, field};
use crate::fronts::name_before;
use crate::named::process_of;
use chor_base::{List, NameId};
use std::alloc::Global;
use transcript::Book;

// The parts that are written so, each after a space.
pub fn parts_of(alloc: Global, bytes: &[u8], book: &Book) -> Result<List<(NameId, u32)>, LineFault>
    requires { AreWords (words book.now).names }
    ensures { IsAnswer (AllByRecursion (HasPart (words book.now))) (parts_text (words book.now)) bytes.now result }
{
    let mut parts = List::new(alloc);
    let mut rest = bytes;
    while !rest.is_empty() {
        let Some((part, more)) = part_before(rest, book) else {
            return Err(LineFault::BadLine);
        };
        parts.push(part)?;
        rest = more;
    }
    Ok(parts)
}

// The part that stands first after a space, and what follows it.
fn part_before<'a>(bytes: &'a [u8], book: &Book) -> Option<((NameId, u32), &'a [u8])>
    requires { AreWords (words book.now).names }
    ensures found { IfSome result (IsPartFront (words book.now) bytes.now) }
    ensures all { FindsParts (words book.now) bytes.now result }
{
    let (text, rest) = field(after(bytes, b' ')?, b' ');
    Some((part_of(text, book)?, rest))
}

// The part that is written so.
fn part_of(text: &[u8], book: &Book) -> Option<(NameId, u32)>
    requires { AreWords (words book.now).names }
    ensures { IsReading (HasPart (words book.now)) (part_text (words book.now)) text.now result }
{
    let (role, process) = name_before(text, b'=', book)?;
    Some((role, process_of(process, book)?))
}
