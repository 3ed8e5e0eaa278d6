//! Pushing.

ghost use Rattle.std.specs.Prelude.{◌≡◌, ◌+◌, ◌<◌, ◌^◌, ◌++◌, ◌∷◌, [], length, MatchBool};
ghost use mathlib.Core.List.{IsPrefix};
ghost use Rattle.chor_stream.specs.Ends.{feed_ring, pushed_of};

use crate::ends::Feed;
use chor_base::Entry;

impl Feed {
    /// Copies the entries of a list that weren't pushed yet into the ring, in order, until the ring is
    /// full, the list ends, or a copy finds no memory. It answers how many were pushed in all.
    pub fn push(&mut self, list: &[Entry]) -> u64
        requires { IsPrefix (pushed_of self.old) list.now }
        ensures ring { feed_ring self.new ≡ feed_ring self.old }
        ensures pushed { IsPrefix (pushed_of self.new) list.now }
        ensures count { result ≡ length (pushed_of self.new) }
    {
        while (self.pushed as usize) < list.len() {
            if !self.push_one(&list[self.pushed as usize]) {
                break;
            }
        }
        self.pushed
    }

    // Whether there was a free slot, and memory for the copy.
    fn push_one(&mut self, entry: &Entry) -> bool
        requires { length (pushed_of self.old) + 1 < 2 ^ 64 }
        ensures ring { feed_ring self.new ≡ feed_ring self.old }
        ensures pushed { MatchBool result (pushed_of self.new ≡ pushed_of self.old ++ entry.now ∷ []) (pushed_of self.new ≡ pushed_of self.old) }
    {
        if self.producer.is_full() {
            return false;
        }
        let Ok(copied) = entry.copy(self.alloc) else {
            return false;
        };
        self.producer.push_reserved(copied);
        self.pushed += 1;
        true
    }
}
