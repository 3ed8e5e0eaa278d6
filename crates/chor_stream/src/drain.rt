//! Printing what the ring holds.

ghost use Rattle.std.specs.Prelude.{◌≡◌, ◌≤◌, ◌+◌, ◌<◌, ◌^◌, ◌++◌, [], IfOk, OnErr, length};
ghost use Rattle.transcript.specs.Books.{words};
ghost use Rattle.chor_stream.specs.Ends.{printer_ring, slots_of, taken_by, waiting_in, HasTakenAll};
ghost use Rattle.chor_stream.specs.Lines.{Drains};

use crate::ends::Printer;
use crate::finish::Finished;
use crate::writing::write_lines;
use chor_base::{Entry, Memory};
use chor_io::Sink;
use transcript::Book;

/// What came of printing a part.
#[derive(Clone, Copy, PartialEq, Eq)]
pub enum Drained {
    /// All lines of the entries that were taken were written.
    Dry,
    /// Writing failed.
    Failed,
    /// Memory ran out.
    Memory,
}

impl Printer {
    /// Takes the entries that the ring is found to hold, at most as many as it has slots, and writes
    /// their lines, numbered on. At `Failed` and `Memory` entries may have been taken whose lines
    /// weren't written, or not whole.
    pub fn drain<K: Sink>(&mut self, book: &Book<'_>, out: &mut K) -> Drained
        ensures ring { (printer_ring self.new ≡ printer_ring self.old) × (slots_of self.new ≡ slots_of self.old) }
        ensures drains { Drains (words book.now) self.old self.new (K.state out.old) (K.state out.new) result }
        ensures rises { (K.state out.old).faults ≤ (K.state out.new).faults }
    {
        let waiting = self.consumer.slots();
        if waiting == 0 {
            return Drained::Dry;
        }
        let before = self.taken;
        let Ok(part) = self.take_known(waiting) else {
            return Drained::Memory;
        };
        match write_lines(self.alloc, before, part.as_slice(), book, out) {
            Finished::Written => Drained::Dry,
            Finished::Failed => Drained::Failed,
            Finished::Memory => Drained::Memory,
        }
    }

    // Takes the entries that are known to be in the ring.
    fn take_known(&mut self, waiting: usize) -> Result<Vec<Entry>, Memory>
        requires { (0 < waiting) × (waiting ≡ length (waiting_in self.old)) }
        ensures ring { (printer_ring self.new ≡ printer_ring self.old) × (slots_of self.new ≡ slots_of self.old) }
        ensures taken { IfOk result (λ part. HasTakenAll self.old part.items self.new) }
        ensures few { IfOk result (λ part. length (taken_by self.old) + length part.items < 2 ^ 64) }
        ensures none { OnErr result (taken_by self.new ≡ taken_by self.old) }
    {
        let mut part = Vec::with_capacity(self.alloc, waiting)?;
        for _ in 0..waiting {
            part.push_reserved(self.consumer.pop_known());
            self.taken += 1;
        }
        Ok(part)
    }
}
