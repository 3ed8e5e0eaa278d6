//! What has to be known of the events so far to find the causes of the next one.

ghost use Rattle.std.specs.Prelude.{ℕ, ◌≡◌, ◌==◌, ◌<◌, OnOk, Some, vec_len, if◌then◌else◌};
ghost use Rattle.causal_order.specs.Scan.{last_event_of};

use crate::index::EventIndex;
use chor_base::Memory;
use std::alloc::Global;

/// The places of the last event of each process, of the last start, and of all sends and receipts.
pub struct Scan {
    // By the number of the process.
    pub last: Vec<Option<u64>>,
    pub start: Option<u64>,
    pub sends: EventIndex,
    pub receipts: EventIndex,
}

impl Drop for Scan {
    fn drop(self) {
        let Scan {
            last: _,
            start: _,
            sends: _,
            receipts: _,
        } = self;
    }
}

impl Scan {
    /// The place of the last event of a process, if it has one.
    pub fn last(&self, pid: u32) -> Option<u64>
        ensures { result ≡ last_event_of self.now pid }
    {
        *self.last.get(pid as usize)?
    }

    /// Adds an event of a process, with its place.
    pub fn add_to(&mut self, pid: u32, place: u64) -> Result<(), Memory>
        ensures last { OnOk result ((p : ℕ) → last_event_of self.new p ≡ (if pid == p then Some place else last_event_of self.old p)) }
        ensures others { self.new ≡ record self.old { last = self.new.last } }
    {
        self.know(pid)?;
        self.last[pid as usize] = Some(place);
        Ok(())
    }

    // Takes memory for the last event of a process.
    fn know(&mut self, pid: u32) -> Result<(), Memory>
        ensures known { OnOk result (pid < vec_len self.new.last) }
        ensures last { OnOk result ((p : ℕ) → last_event_of self.new p ≡ last_event_of self.old p) }
        ensures others { self.new ≡ record self.old { last = self.new.last } }
    {
        let count = pid as usize + 1;
        if count <= self.last.len() {
            return Ok(());
        }
        self.last.resize(count, None)?;
        Ok(())
    }
}
