//! The end of a stream.

ghost use Rattle.std.specs.Prelude.{◌≡◌, ◌≤◌, ◌+◌, ◌<◌, ◌^◌, length};
ghost use mathlib.Core.List.{IsPrefix};
ghost use Rattle.transcript.specs.Books.{words};
ghost use Rattle.chor_stream.specs.Ends.{feed_ring, printer_ring, pushed_of, taken_by};
ghost use Rattle.chor_stream.specs.Lines.{entry_lines, lines_after, Finishes};

use crate::ends::{Feed, Printer};
use crate::writing::write_lines;
use chor_base::Entry;
use chor_io::Sink;
use std::alloc::Global;
use transcript::Book;

/// What came of printing the rest.
#[derive(Clone, Copy, PartialEq, Eq)]
pub enum Finished {
    /// All lines were written.
    Written,
    /// Writing failed.
    Failed,
    /// Memory ran out.
    Memory,
}

// How many lines are written at a time.
const PART: usize = 4096;

impl Printer {
    /// Writes the lines of the entries of a list that weren't taken, numbered on, 4,096 at a time. The list
    /// begins with what was pushed; what was pushed and not taken is written from the list.
    pub fn finish<K: Sink>(
        self,
        feed: Feed,
        list: &[Entry],
        book: &Book<'_>,
        out: &mut K,
    ) -> Finished
        requires pair { feed_ring feed ≡ printer_ring self }
        requires list { IsPrefix (pushed_of feed) list.now }
        ensures taken { IsPrefix (taken_by self) list.entry.now }
        ensures lines { Finishes result (K.state out.old) (K.state out.new) (lines_after (words book.entry.now) (taken_by self) list.entry.now) }
        ensures rises { (K.state out.old).faults ≤ (K.state out.new).faults }
    {
        let taken = self.taken;
        let alloc = self.alloc;
        self.settle(feed, list);
        write_parts(alloc, taken, &list[taken as usize..], book, out)
    }

    /// Ends a stream without writing, and proves that what was taken is a prefix of the list. It takes no
    /// memory.
    pub fn settle(self, feed: Feed, list: &[Entry])
        requires pair { feed_ring feed ≡ printer_ring self }
        requires list { IsPrefix (pushed_of feed) list.now }
        ensures { IsPrefix (taken_by self) list.entry.now }
    {
        let Printer {
            mut consumer,
            taken: _,
            alloc: _,
        } = self;
        let Feed {
            mut producer,
            pushed: _,
            alloc: _,
        } = feed;
        consumer.slots_beside(&mut producer);
    }
}

// Writes the lines of entries that come after so many others, part by part.
fn write_parts<K: Sink>(
    alloc: Global,
    count: u64,
    entries: &[Entry],
    book: &Book<'_>,
    out: &mut K,
) -> Finished
    requires { count + length entries.now < 2 ^ 64 }
    ensures lines { Finishes result (K.state out.old) (K.state out.new) (entry_lines (words book.now) (count + 1) entries.now) }
    ensures rises { (K.state out.old).faults ≤ (K.state out.new).faults }
{
    let mut next = count;
    let mut rest = entries;
    while !rest.is_empty() {
        let (part, more) = rest.split_at(rest.len().min(PART));
        match write_lines(alloc, next, part, book, out) {
            Finished::Written => (),
            Finished::Failed => return Finished::Failed,
            Finished::Memory => return Finished::Memory,
        }
        next += part.len() as u64;
        rest = more;
    }
    Finished::Written
}
