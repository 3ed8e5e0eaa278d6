//! What a program asks of the outside.

ghost use Rattle.std.specs.Prelude.{◌≡◌, ◌≢◌, ◌≤◌, ◌<◌, ◌^◌, ℕ, List, []};
ghost use Rattle.chor_io.specs.Outside.{FetchGrows, FetchTells, PutTells, Risen, ShelfState, SinkState};

/// What came of a fetch.
#[derive(Clone, Copy, PartialEq, Eq)]
pub enum Fetched {
    /// All bytes of the file were added.
    All,
    /// The file isn't there, or reading it failed.
    Failed,
    /// The file has more bytes than the limit. One byte more than the limit was added.
    TooLong,
    /// There was no memory.
    Memory,
}

/// What came of a write.
#[derive(Clone, Copy, PartialEq, Eq)]
pub enum Put {
    /// All bytes of the piece were written.
    All,
    /// Writing failed, maybe after some bytes of the piece.
    Failed,
}

/// A place that files are read from by name.
///
/// For a shelf of your own, keep for each name how often a fetch of it has failed, and raise that
/// count, and no other, each time you answer `Failed`: `faults` is that count. If it is held in 64
/// bits, let it stay at the greatest number. A shelf whose files are known to its type says in
/// `files` which bytes each name has, and then owes exactly these bytes. A shelf that reads a disk
/// says `None` there, and owes only how far `into` grows.
pub trait Shelf {
    /// The files, and the failed fetches of each name.
    ghost state: { Self → ShelfState };

    /// Adds the bytes of a file after those that stand in `into`. A file of more than `limit`
    /// bytes isn't read further than one byte beyond. Whatever the answer, what stood in `into`
    /// still stands there at the front.
    fn fetch(&mut self, name: &[u8], limit: u64, into: &mut Vec<u8>) -> Fetched
        requires { limit < 2 ^ 32 }
        ensures grows { FetchGrows limit into.old.items into.new.items result }
        ensures told { FetchTells (state self.old).files name.now limit into.old.items into.new.items result }
        ensures same { (state self.new).files ≡ (state self.old).files }

        // A failure is counted at this very name.
        ensures cause { result ≡ Fetched.Failed → Risen ((state self.old).faults name.now) ((state self.new).faults name.now) }
        ensures rises { (state self.old).faults name.now ≤ (state self.new).faults name.now }
        ensures others { (other : List ℕ) → other ≢ name.now → (state self.new).faults other ≡ (state self.old).faults other };
}

/// A place that bytes are written to, in order.
///
/// For a sink of your own, keep how often a write has failed, and raise that count each time you
/// answer `Failed`: `faults` is that count. If it is held in 64 bits, let it stay at the greatest
/// number. Where only a front of the piece could be written, answer `Failed`. A sink whose bytes
/// are known to its type says in `written` which they are, and a sink over a device says `None`.
pub trait Sink {
    /// The bytes written, and the failed writes.
    ghost state: { Self → SinkState };

    /// Writes the bytes of a piece after those written before. An empty piece is always written,
    /// and is no call that could fail.
    fn put(&mut self, piece: &[u8]) -> Put
        ensures told { PutTells (state self.old).written (state self.new).written piece.now result }
        ensures empty { piece.now ≡ [] → result ≡ Put.All }
        ensures empty_same { piece.now ≡ [] → (state self.new).faults ≡ (state self.old).faults }
        ensures cause { result ≡ Put.Failed → Risen (state self.old).faults (state self.new).faults }
        ensures rises { (state self.old).faults ≤ (state self.new).faults };
}

/// What a worker passes before each of its turns.
///
/// A gate waits or returns, and changes nothing that a contract names: a test holds workers back
/// with it to try one order of their turns. A gate that may wait holds a handle for it, as
/// `rt: &R` with `R: Wait`.
pub trait Gate {
    /// Called by a worker, counted from 1, with the number of its turns so far.
    fn before(&self, worker: u32, turn: u64);
}
