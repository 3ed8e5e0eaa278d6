//! Real files and standard output. What they hold isn't told: that the system's calls do what they
//! promise is trusted.

ghost use Rattle.std.specs.Prelude.{◌≡◌, ◌≢◌, ◌≤◌, ◌<◌, ◌^◌, ℕ, List, [], None};
ghost use Rattle.chor_io.specs.Outside.{failed_after, failures_after, times, FetchGrows, FetchTells, PutTells, ReadTells, Risen, WriteTells};

use crate::failed::FailedNames;
use crate::outside::{Fetched, Put, Shelf, Sink};
use std::alloc::Global;
use std::io::{Read, Write};
use std::marker::Model;
use std::rt::Files;
use std::{fs, io};

/// The files of the system. A name is a path in UTF-8, and any other name fails.
#[derive(Drop)]
pub struct DiskShelf<'a, R> {
    rt: &'a R,
    failed: FailedNames,
}

impl<'a, R> Model for DiskShelf<'a, R> {
    ghost use Rattle.std.specs.Prelude.{ℕ, List};

    ghost Value = { List (List ℕ) };

    ghost view = { λ a. a.failed.names.items };
}

impl<'a, R: Files> DiskShelf<'a, R> {
    /// The files that this runtime reaches, no fetch of which has failed so far.
    pub fn new(alloc: Global, rt: &'a R) -> Self
        ensures { result ≡ [] }
    {
        DiskShelf {
            rt,
            failed: FailedNames::new(alloc),
        }
    }
}

// Adds what a reader has left, and stops one byte beyond the limit.
fn read_to<F: Read>(file: &mut F, limit: u64, into: &mut Vec<u8>) -> Fetched
    requires { limit < 2 ^ 32 }
    ensures grows { FetchGrows limit into.old.items into.new.items result }
    ensures told { ReadTells (F.remaining file.old) limit into.old.items into.new.items result }
{
    let mut left = limit as usize + 1;
    let mut buffer = [0u8; 4096];
    while left > 0 {
        let wanted = left.min(buffer.len());
        let Ok(count) = file.read(&mut buffer[..wanted]) else {
            return Fetched::Failed;
        };
        if count == 0 {
            return Fetched::All;
        }
        if into.extend_from_slice(&buffer[..count]).is_err() {
            return Fetched::Memory;
        }
        left -= count;
    }
    Fetched::TooLong
}

// Opens a file and adds its bytes.
fn read_file<R: Files>(rt: &R, name: &[u8], limit: u64, into: &mut Vec<u8>) -> Fetched
    requires { limit < 2 ^ 32 }
    ensures grows { FetchGrows limit into.old.items into.new.items result }
{
    let Ok(path) = str::from_utf8(name) else {
        return Fetched::Failed;
    };
    let Ok(mut file) = fs::open(rt, path) else {
        return Fetched::Failed;
    };
    read_to(&mut file, limit, into)
}

impl<R: Files> Shelf for DiskShelf<'_, R> {
    ghost state = { λ names. record { files = None; faults = times names } };

    /// Opens the file and reads it to its end or to one byte beyond the limit. A directory fails, and
    /// so does a read that a signal interrupts.
    fn fetch(&mut self, name: &[u8], limit: u64, into: &mut Vec<u8>) -> Fetched
        requires { limit < 2 ^ 32 }
        ensures grows { FetchGrows limit into.old.items into.new.items result }
        ensures told { FetchTells None name.now limit into.old.items into.new.items result }
        ensures cause { result ≡ Fetched.Failed → Risen (times self.old name.now) (times self.new name.now) }
        ensures rises { times self.old name.now ≤ times self.new name.now }
        ensures others { (other : List ℕ) → other ≢ name.now → times self.new other ≡ times self.old other }

        // What it does beyond that.
        ensures after { self.new ≡ failed_after self.old name.now result }
    {
        let Ok(failure) = self.failed.prepare(name) else {
            return Fetched::Memory;
        };
        let answer = read_file(self.rt, name, limit, into);
        self.failed.settle(failure, answer);
        answer
    }
}

/// Standard output.
#[derive(Drop)]
pub struct OutSink<'a, R> {
    rt: &'a R,
    failures: u64,
}

impl<'a, R> Model for OutSink<'a, R> {
    ghost use Rattle.std.specs.Prelude.{ℕ};

    ghost Value = { ℕ };

    ghost view = { λ a. a.failures };
}

impl<'a, R: Print> OutSink<'a, R> {
    /// The standard output of this runtime, no write to which has failed so far.
    pub fn new(rt: &'a R) -> Self
        ensures { result ≡ 0 }
    {
        OutSink { rt, failures: 0 }
    }
}

// Writes a piece. A writer that takes nothing of what is left has failed.
fn write_all<W: Write>(out: &mut W, piece: &[u8]) -> Put
    ensures empty { piece.now ≡ [] → result ≡ Put.All }
    ensures told { WriteTells (W.contents out.old) (W.contents out.new) piece.now result }
{
    let mut rest = piece;
    while !rest.is_empty() {
        match out.write(rest) {
            Ok(count) if count > 0 => rest = &rest[count..],
            _ => return Put::Failed,
        }
    }
    Put::All
}

impl<R: Print> Sink for OutSink<'_, R> {
    ghost state = { λ failures. record { written = None; faults = failures } };

    /// Writes until the piece is written or a write fails. A write that takes nothing has failed,
    /// and so has one that a signal interrupts.
    fn put(&mut self, piece: &[u8]) -> Put
        ensures told { PutTells None None piece.now result }
        ensures empty { piece.now ≡ [] → result ≡ Put.All }
        ensures empty_same { piece.now ≡ [] → self.new ≡ self.old }
        ensures cause { result ≡ Put.Failed → Risen self.old self.new }
        ensures rises { self.old ≤ self.new }

        // What it does beyond that.
        ensures after { self.new ≡ failures_after self.old result }
    {
        let mut out = io::writer(self.rt);
        let answer = write_all(&mut out, piece);
        if answer == Put::Failed {
            self.failures = self.failures.saturating_add(1);
        }
        answer
    }
}
