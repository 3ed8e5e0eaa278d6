//! Sinks that tell their calls, and a gate that waits for one.

use chor_io::{Gate, MemorySink, Put, Sink};
use std::sync::atomic::AtomicU64;
use std::sync::atomic::Ordering::SeqCst;
use std::thread;

/// How often a sink was called.
#[derive(Drop)]
pub struct Calls {
    made: AtomicU64,
}

impl Calls {
    pub fn new() -> Calls {
        Calls {
            made: AtomicU64::new(0),
        }
    }

    /// How often it was called so far.
    pub fn count(&self) -> u64 {
        self.made.load(SeqCst)
    }

    fn add(&self) {
        self.made.fetch_add(1, SeqCst);
    }
}

/// A sink in memory that counts its calls, and lets other threads go first so often before it writes.
#[derive(Drop)]
pub struct SlowSink<'a> {
    pub inner: MemorySink,
    pub calls: &'a Calls,
    pub pauses: u64,
}

impl Sink for SlowSink<'_> {
    ghost use Rattle.std.specs.Prelude.{Some};

    ghost state = { λ sink. record { written = Some sink.inner.written; faults = sink.inner.failures } };

    fn put(&mut self, piece: &[u8]) -> Put {
        self.calls.add();
        for _ in 0..self.pauses {
            thread::yield_now();
        }
        self.inner.put(piece)
    }
}

// How often a held worker looks at most.
const MOST_LOOKS: u64 = 1_000_000_000;

/// It holds a turn of the first worker until a sink was called.
#[derive(Drop)]
pub struct LineGate<'a> {
    turn: u64,
    calls: &'a Calls,
    held: AtomicU64,
    ran_out: AtomicU64,
}

impl<'a> LineGate<'a> {
    /// It holds the turn of this number, from 0.
    pub fn new(turn: u64, calls: &'a Calls) -> LineGate<'a> {
        LineGate {
            turn,
            calls,
            held: AtomicU64::new(0),
            ran_out: AtomicU64::new(0),
        }
    }

    /// Whether the first worker came to that turn, and the sink was called while it looked.
    pub fn was_passed(&self) -> bool {
        self.held.load(SeqCst) == 1 && self.ran_out.load(SeqCst) == 0
    }
}

impl Gate for LineGate<'_> {
    fn before(&self, worker: u32, turn: u64) {
        if worker != 1 || turn != self.turn {
            return;
        }
        self.held.store(1, SeqCst);
        for _ in 0..MOST_LOOKS {
            if self.calls.count() > 0 {
                return;
            }
        }
        self.ran_out.store(1, SeqCst);
    }
}
