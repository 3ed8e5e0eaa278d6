//! A bell by which workers that have nothing to do are called.

use crossbeam_utils::Backoff;
use crossbeam_utils::sync::EventCount;
use std::sync::Wait;
use std::sync::atomic::AtomicU64;
use std::sync::atomic::Ordering::SeqCst;
use std::thread;

// How often a worker looks before it sleeps: until `Backoff` has yielded the processor a few times.
const LOOKS: u32 = 12;

/// A worker rings it after a turn in which something has happened. For that a worker waits that has
/// nothing to do, so that it doesn't take the turn from the others.
///
/// A worker doesn't wait for one that hasn't begun: where no thread can be made for that one, it begins
/// only when another leaves. So after a while it leaves, and then all do that have nothing to do.
#[derive(Drop)]
pub struct Bell {
    rings: AtomicU64,
    sleepers: EventCount,
    // How many workers there are, and how many have begun.
    workers: u64,
    begun: AtomicU64,
    // How often a worker looks for those that haven't begun, and 1 where one has left.
    patience: u64,
    left: AtomicU64,
}

impl Bell {
    /// A bell for so many workers, each of which looks so often for the others before it leaves.
    pub fn new(workers: u64, patience: u64) -> Bell {
        Bell {
            rings: AtomicU64::new(0),
            sleepers: EventCount::new(),
            workers,
            begun: AtomicU64::new(0),
            patience,
            left: AtomicU64::new(0),
        }
    }

    /// A worker begins.
    pub fn begin(&self) {
        self.begun.fetch_add(1, SeqCst);
    }

    /// How often it has rung.
    pub fn rings(&self) -> u64 {
        self.rings.load(SeqCst)
    }

    /// Rings, and tells how often it had rung before.
    pub fn ring(&self) -> u64 {
        let before = self.rings.fetch_add(1, SeqCst);
        self.sleepers.notify_all();
        before
    }

    /// Waits for a short while until it has rung more often than so. Tells whether it has.
    pub fn listen(&self, heard: u64) -> bool {
        let backoff = Backoff::new();
        for _ in 0..LOOKS {
            if self.rings() != heard {
                return true;
            }
            backoff.snooze();
        }
        false
    }

    /// Waits until it has rung more often than so, and tells that it has, or that the worker is to leave.
    pub fn wait<R: Wait>(&self, rt: &R, heard: u64) -> bool {
        if self.listen(heard) {
            return true;
        }
        self.look_for_all(heard);
        if self.rings() != heard {
            return true;
        }
        if !self.has_all() {
            self.leave();
            return false;
        }
        self.sleep(rt, heard)
    }

    // Whether each worker has begun, and none has left.
    fn has_all(&self) -> bool {
        self.begun.load(SeqCst) >= self.workers && self.left.load(SeqCst) == 0
    }

    // Looks for workers that haven't begun, as long as none has left and it hasn't rung more often than so.
    fn look_for_all(&self, heard: u64) {
        for _ in 0..self.patience {
            if self.has_all() || self.left.load(SeqCst) != 0 || self.rings() != heard {
                return;
            }
            thread::yield_now();
        }
    }

    // A worker leaves, so that those who sleep leave too.
    fn leave(&self) {
        self.left.store(1, SeqCst);
        self.sleepers.notify_all();
    }

    // Sleeps until it has rung more often than so, and tells that it has, or that one has left.
    fn sleep<R: Wait>(&self, rt: &R, heard: u64) -> bool {
        for _ in rt.forever() {
            let key = self.sleepers.prepare_wait();
            if self.rings() != heard {
                return true;
            }
            if self.left.load(SeqCst) != 0 {
                return false;
            }
            key.wait(rt);
        }
        false
    }
}
