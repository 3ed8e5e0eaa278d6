//! Printing while workers run.

ghost use Rattle.std.specs.Prelude.{◌≡◌, ◌≤◌};
ghost use Rattle.transcript.specs.Books.{words};
ghost use Rattle.chor_stream.specs.Ends.{printer_ring};
ghost use Rattle.workers.specs.Printing.{Prints};

use chor_io::Sink;
use chor_stream::{Drained, Printer};
use std::sync::Wait;
use std::sync::atomic::AtomicU64;
use std::sync::atomic::Ordering::SeqCst;
use std::thread;
use transcript::Book;

/// What the workers tell the thread that prints.
#[derive(Drop)]
pub struct Flags {
    begun: AtomicU64,
    ended: AtomicU64,
}

// How often the printer looks for workers that haven't begun. Where no thread can be made, the workers
// begin when the printer returns, and what they make is written after they have ended. Where a thread
// begins later than that, nothing is lost either: its lines are written at the end.
const MOST_LOOKS: u64 = 1 << 20;

impl Flags {
    pub fn new() -> Flags {
        Flags {
            begun: AtomicU64::new(0),
            ended: AtomicU64::new(0),
        }
    }

    /// The workers begin.
    pub fn begin(&self) {
        self.begun.store(1, SeqCst);
    }

    /// All workers have ended.
    pub fn end(&self) {
        self.ended.store(1, SeqCst);
    }

    // Whether the workers have ended, or didn't begin for so many looks.
    fn is_over(&self, looks: u64) -> bool {
        self.ended.load(SeqCst) == 1 || (looks >= MOST_LOOKS && self.begun.load(SeqCst) == 0)
    }
}

/// Prints until the workers have ended, or until a fault. Each line is handed on when it is whole.
pub fn print_all<R: Wait, K: Sink>(
    rt: &R,
    printer: &mut Printer,
    book: &Book<'_>,
    out: &mut K,
    flags: &Flags,
) -> Drained
    ensures ring { printer_ring printer.new ≡ printer_ring printer.old }
    ensures prints { Prints (words book.now) printer.old printer.new (K.state out.old) (K.state out.new) result }
    ensures rises { (K.state out.old).faults ≤ (K.state out.new).faults }
{
    let mut looks = 0u64;
    for _ in rt.forever() {
        // looked at first: what was pushed before it was set is drained
        let is_over = flags.is_over(looks);
        match printer.drain(book, out) {
            Drained::Dry => (),
            Drained::Failed => return Drained::Failed,
            Drained::Memory => return Drained::Memory,
        }
        if is_over {
            return Drained::Dry;
        }
        looks = looks.saturating_add(1);
        thread::yield_now();
    }
    unreachable!()
}
