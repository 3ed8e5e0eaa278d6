//! Gates that hold workers back, and one that counts.

use chor_io::Gate;
use std::sync::atomic::{AtomicU64, Ordering};

// How often a held worker looks at most.
const MOST_LOOKS: u64 = 1_000_000_000;

/// It holds a turn of one worker until another worker asks for a turn of its own.
#[derive(Drop)]
pub struct HoldGate {
    held: (u32, u64),
    until: (u32, u64),
    asked: AtomicU64,
    ran_out: AtomicU64,
}

impl HoldGate {
    /// It holds the turn of this number, from 0, of this worker until that turn of another is asked for.
    pub fn new(held: (u32, u64), until: (u32, u64)) -> HoldGate {
        HoldGate {
            held,
            until,
            asked: AtomicU64::new(0),
            ran_out: AtomicU64::new(0),
        }
    }

    /// Whether the held worker looked as often as it may, and nobody had asked.
    pub fn ran_out(&self) -> bool {
        self.ran_out.load(Ordering::SeqCst) != 0
    }
}

impl Gate for HoldGate {
    fn before(&self, worker: u32, turn: u64) {
        let (until, its_turn) = self.until;
        if worker == until && turn == its_turn {
            self.asked.store(1, Ordering::SeqCst);
        }
        let (held, its_turn) = self.held;
        if worker == held && turn == its_turn {
            for _ in 0..MOST_LOOKS {
                if self.asked.load(Ordering::SeqCst) == 1 {
                    return;
                }
            }
            self.ran_out.store(1, Ordering::SeqCst);
        }
    }
}

/// One gate, and then another.
#[derive(Drop)]
pub struct BothGates {
    pub first: HoldGate,
    pub second: HoldGate,
}

impl Gate for BothGates {
    fn before(&self, worker: u32, turn: u64) {
        self.first.before(worker, turn);
        self.second.before(worker, turn);
    }
}

/// It counts how often it is asked.
#[derive(Drop)]
pub struct CountGate {
    asked: AtomicU64,
}

impl CountGate {
    pub fn new() -> CountGate {
        CountGate {
            asked: AtomicU64::new(0),
        }
    }

    /// How often it was asked.
    pub fn asked(&self) -> u64 {
        self.asked.load(Ordering::SeqCst)
    }
}

impl Gate for CountGate {
    fn before(&self, _worker: u32, _turn: u64) {
        self.asked.fetch_add(1, Ordering::SeqCst);
    }
}
