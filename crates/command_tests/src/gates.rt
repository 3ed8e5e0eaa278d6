//! Runs of the purchase by two workers, one of whom is held back until the other asks for its second
//! turn. A body that takes turns in one fixed order runs out of looks under one of the two gates.

use crate::calls::words_of;
use chor_base::{List, Word};
use chor_cmd::chor;
use chor_host::HostTable;
use chor_io::{Gate, MemoryShelf, MemorySink};
use std::alloc::{Alloc, Global};
use std::fs::{self, Files};
use std::sync::Wait;
use std::sync::atomic::{AtomicU64, Ordering};
use std::thread::Threads;

// How often a held worker looks at most.
const MOST_LOOKS: u64 = 1_000_000_000;

// It holds a worker's first turn until another worker asks for its second.
#[derive(Drop)]
struct HoldGate {
    held: u32,
    other: u32,
    asked: AtomicU64,
    ran_out: AtomicU64,
}

impl HoldGate {
    fn new(held: u32, other: u32) -> HoldGate {
        HoldGate {
            held,
            other,
            asked: AtomicU64::new(0),
            ran_out: AtomicU64::new(0),
        }
    }

    // Looks until the other worker has asked.
    fn hold(&self) {
        for _ in 0..MOST_LOOKS {
            if self.asked.load(Ordering::SeqCst) == 1 {
                return;
            }
        }
        self.ran_out.store(1, Ordering::SeqCst);
    }
}

impl Gate for HoldGate {
    fn before(&self, worker: u32, turn: u64) {
        if worker == self.other && turn == 1 {
            self.asked.store(1, Ordering::SeqCst);
        }
        if worker == self.held && turn == 0 {
            self.hold();
        }
    }
}

// A shelf on which `FILE` has these bytes.
fn shelf_of(alloc: Global, source: &[u8]) -> anyhow::Result<MemoryShelf> {
    let name = Word::from_slice(alloc, b"FILE".as_slice())?;
    let bytes = Word::from_slice(alloc, source)?;
    let mut files = List::new(alloc);
    files.push((name, bytes))?;
    Ok(MemoryShelf::new(alloc, files, List::new(alloc)))
}

// Runs a source by two workers under a gate, and writes how the run ended.
fn answer_gate<R: Threads + Wait + Sync + Print>(
    rt: &R,
    alloc: Global,
    hosts: &HostTable,
    source: &[u8],
    gate: &HoldGate,
) -> anyhow::Result<()> {
    let words = words_of(alloc, "run FILE --workers 2")?;
    let mut shelf = shelf_of(alloc, source)?;
    let mut out = MemorySink::new(alloc, 1 << 16, List::new(alloc))?;
    let status = chor(rt, alloc, &words, hosts, &mut shelf, &mut out, gate);
    let text = str::from_utf8(out.bytes()).unwrap_or("");
    let last = text.lines().last().unwrap_or("");
    let ran_out = gate.ran_out.load(Ordering::SeqCst);
    println!(rt;
        "worker {} waited for worker {}: status {}, {last}, out of looks {ran_out}",
        gate.held,
        gate.other,
        status.number()
    )?;
    Ok(())
}

/// Writes a line for each of the two gates.
pub fn answer_gates<R: Threads + Wait + Sync + Print + Files + Alloc>(
    rt: &R,
    alloc: Global,
    hosts: &HostTable,
) -> anyhow::Result<()> {
    let source = fs::read_to_string(rt, "worked/purchase.chor")?;
    answer_gate(rt, alloc, hosts, source.as_bytes(), &HoldGate::new(1, 2))?;
    answer_gate(rt, alloc, hosts, source.as_bytes(), &HoldGate::new(2, 1))
}
