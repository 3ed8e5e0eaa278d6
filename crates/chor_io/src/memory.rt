//! A shelf and a sink in memory.

ghost use Rattle.std.specs.Prelude.{◌≡◌, ◌≢◌, ◌≤◌, ◌<◌, ◌^◌, ◌⊎◌, ℕ, List, [], Some, None, IfOk, MatchOption};
ghost use Rattle.chor_io.specs.Outside.{times, FetchFrom, FetchGrows, PutTells, Risen};
ghost use Rattle.chor_io.specs.Memory.{after_fetch, after_put, allowance_of, file_of, put_answer, FailsAt};

use crate::failed::FailedNames;
use crate::outside::{Fetched, Put, Shelf, Sink};
use chor_base::{List, Memory, Word};
use std::alloc::Global;
use std::marker::Model;

/// Files in memory, of which chosen calls fail.
pub struct MemoryShelf {
    files: List<(Word, Word)>,
    fails: List<u64>,
    calls: u64,
    failed: FailedNames,
}

impl Drop for MemoryShelf {
    fn drop(self) {
        let MemoryShelf {
            files: _,
            fails: _,
            calls: _,
            failed: _,
        } = self;
    }
}

impl Model for MemoryShelf {
    ghost use Rattle.chor_io.specs.Views.{ShelfView};

    ghost Value = { ShelfView };

    ghost view = { λ a. record { files = a.files; fails = a.fails; calls = a.calls; failed = a.failed.names.items } };
}

impl MemoryShelf {
    /// A shelf of names with their bytes, of which the first pair of a name counts. A call whose
    /// number, counted from 1, is among `fails` fails.
    pub fn new(alloc: Global, files: List<(Word, Word)>, fails: List<u64>) -> Self
        ensures { result ≡ record { files = files; fails = fails; calls = 0; failed = [] } }
    {
        MemoryShelf {
            files,
            fails,
            calls: 0,
            failed: FailedNames::new(alloc),
        }
    }
}

// The bytes of the first file of this name.
fn find<'a>(files: &'a [(Word, Word)], name: &[u8]) -> Option<&'a Word>
    ensures { MatchOption result (file_of files.now name.now ≡ None) (λ word. file_of files.now name.now ≡ Some word.now) }
{
    for file in files {
        if file.0.as_slice() == name {
            return Some(&file.1);
        }
    }
    None
}

// What a call that isn't to fail answers.
fn copy_file(files: &[(Word, Word)], name: &[u8], limit: u64, into: &mut Vec<u8>) -> Fetched
    requires { limit < 2 ^ 32 }
    ensures grows { FetchGrows limit into.old.items into.new.items result }
    ensures told { FetchFrom (file_of files.now name.now) limit into.old.items into.new.items result }
    ensures failed { result ≡ Fetched.Failed → file_of files.now name.now ≡ None }
    ensures unmoved { (result ≡ Fetched.Failed) ⊎ (result ≡ Fetched.Memory) → into.new.items ≡ into.old.items }
{
    let Some(bytes) = find(files, name) else {
        return Fetched::Failed;
    };
    if bytes.len() as u64 > limit {
        return match into.extend_from_slice(&bytes.as_slice()[..limit as usize + 1]) {
            Ok(()) => Fetched::TooLong,
            Err(_) => Fetched::Memory,
        };
    }
    match into.extend_from_slice(bytes.as_slice()) {
        Ok(()) => Fetched::All,
        Err(_) => Fetched::Memory,
    }
}

impl Shelf for MemoryShelf {
    ghost state = { λ shelf. record { files = Some (file_of shelf.files); faults = times shelf.failed } };

    /// It fails exactly at a call that is to fail and at a name that the shelf hasn't, and adds
    /// nothing then. Every call counts, one that found no memory too.
    fn fetch(&mut self, name: &[u8], limit: u64, into: &mut Vec<u8>) -> Fetched
        requires { limit < 2 ^ 32 }
        ensures grows { FetchGrows limit into.old.items into.new.items result }
        ensures told { FetchFrom (file_of self.old.files name.now) limit into.old.items into.new.items result }
        ensures same { Some (file_of self.new.files) ≡ Some (file_of self.old.files) }
        ensures cause { result ≡ Fetched.Failed → Risen (times self.old.failed name.now) (times self.new.failed name.now) }
        ensures rises { times self.old.failed name.now ≤ times self.new.failed name.now }
        ensures others { (other : List ℕ) → other ≢ name.now → times self.new.failed other ≡ times self.old.failed other }

        // What it does beyond that.
        ensures only { result ≡ Fetched.Failed → FailsAt self.old name.now }
        ensures fails { FailsAt self.old name.now → (result ≡ Fetched.Failed) ⊎ (result ≡ Fetched.Memory) }
        ensures unmoved { (result ≡ Fetched.Failed) ⊎ (result ≡ Fetched.Memory) → into.new.items ≡ into.old.items }
        ensures after { self.new ≡ after_fetch self.old name.now result }
    {
        self.calls = self.calls.saturating_add(1);
        let Ok(failure) = self.failed.prepare(name) else {
            return Fetched::Memory;
        };
        let answer = if self.fails.as_slice().contains(&self.calls) {
            Fetched::Failed
        } else {
            copy_file(self.files.as_slice(), name, limit, into)
        };
        self.failed.settle(failure, answer);
        answer
    }
}

/// Bytes written to memory, of which chosen calls fail.
pub struct MemorySink {
    bytes: Vec<u8>,
    room: usize,
    fails: List<(u64, u64)>,
    calls: u64,
    failures: u64,
}

impl Drop for MemorySink {
    fn drop(self) {
        let MemorySink {
            bytes: _,
            room: _,
            fails: _,
            calls: _,
            failures: _,
        } = self;
    }
}

impl Model for MemorySink {
    ghost use Rattle.std.specs.Prelude.{◌≤◌, vec_len, vec_capacity};
    ghost use Rattle.chor_io.specs.Views.{SinkView};

    ghost Value = { SinkView };

    ghost view = { λ a. record { written = a.bytes.items; room = a.room; fails = a.fails; calls = a.calls; failures = a.failures } };

    ghost invariant = { λ a. (vec_len a.bytes ≤ a.room) × (a.room ≤ vec_capacity a.bytes) };
}

impl MemorySink {
    /// A sink that takes the memory for `room` bytes at once. Each pair of `fails` is the number
    /// of a call, counted from 1, that fails, and how many bytes it takes before: fewer where the
    /// piece or the room is less. The first pair of a number counts.
    pub fn new(alloc: Global, room: u32, fails: List<(u64, u64)>) -> Result<Self, Memory>
        ensures { IfOk result (λ sink. sink ≡ record { written = []; room = room; fails = fails; calls = 0; failures = 0 }) }
    {
        let room = room as usize;
        Ok(MemorySink {
            bytes: Vec::with_capacity(alloc, room)?,
            room,
            fails,
            calls: 0,
            failures: 0,
        })
    }

    /// The bytes written so far.
    pub fn bytes(&self) -> &[u8]
        ensures { result.now ≡ self.now.written }
    {
        self.bytes.as_slice()
    }
}

// How many bytes the first pair with this number lets through.
fn allowance(fails: &[(u64, u64)], number: u64) -> Option<u64>
    ensures { result ≡ allowance_of fails.now number }
{
    for (call, allowance) in fails {
        if *call == number {
            return Some(*allowance);
        }
    }
    None
}

impl Sink for MemorySink {
    ghost state = { λ sink. record { written = Some sink.written; faults = sink.failures } };

    /// It fails exactly at a call that is to fail and where the bytes would exceed the room, and
    /// has taken what fits then.
    fn put(&mut self, piece: &[u8]) -> Put
        ensures told { PutTells (Some self.old.written) (Some self.new.written) piece.now result }
        ensures empty { piece.now ≡ [] → result ≡ Put.All }
        ensures empty_same { piece.now ≡ [] → self.new.failures ≡ self.old.failures }
        ensures cause { result ≡ Put.Failed → Risen self.old.failures self.new.failures }
        ensures rises { self.old.failures ≤ self.new.failures }

        // What it does beyond that.
        ensures answer { result ≡ put_answer self.old piece.now }
        ensures after { self.new ≡ after_put self.old piece.now }
    {
        if piece.is_empty() {
            return Put::All;
        }
        self.calls = self.calls.saturating_add(1);
        let listed = allowance(self.fails.as_slice(), self.calls);
        let wanted = piece.len();
        let free = self.room - self.bytes.len();
        let taken = listed.unwrap_or(wanted as u64).min(wanted.min(free) as u64) as usize;
        if self.bytes.extend_from_slice(&piece[..taken]).is_err() {
            unreachable!();
        }
        if listed.is_some() || free < wanted {
            self.failures = self.failures.saturating_add(1);
            return Put::Failed;
        }
        Put::All
    }
}
