//! Byte strings and their numbers.

ghost use Rattle.std.specs.Prelude.{◌≡◌, ◌<◌, ◌++◌, ◌∷◌, [], length, slice_get, Some, OnOk, OnErr, IfOk, IfSome, IfNone};
ghost use Rattle.chor_base.specs.Words.{with_word, IsShortSet, Lacks};

use crate::memory::Memory;
use std::alloc::Global;
use std::collections::HashMap;
use std::marker::Model;

/// Fewer than 2^32 byte strings, each once. The number of one is its place.
pub struct Table {
    words: Vec<Vec<u8>>,
    numbers: HashMap<Vec<u8>, u32>,
}

impl Drop for Table {
    fn drop(self) {
        let Table {
            words: _,
            numbers: _,
        } = self;
    }
}

impl Model for Table {
    ghost use Rattle.std.specs.Prelude.{List, ℕ};
    ghost use Rattle.chor_base.specs.Words.{words_of, IsNumbered};

    ghost Value = { List (List ℕ) };

    ghost view = { λ a. words_of a.words.items };

    ghost invariant = { λ a. IsNumbered (words_of a.words.items) a.numbers.entries };
}

impl Table {
    pub fn new(alloc: Global) -> Self
        ensures { result ≡ [] }
    {
        Table {
            words: Vec::new(alloc),
            numbers: HashMap::new(alloc),
        }
    }

    pub fn len(&self) -> usize
        ensures len { result ≡ length self.now }
        ensures set { IsShortSet self.now }
    {
        self.words.len()
    }

    pub fn find(&self, word: &[u8]) -> Option<u32>
        ensures found { IfSome result (λ n. slice_get self.now n ≡ Some word.now) }
        ensures absent { IfNone result (Lacks self.now word.now) }
        ensures set { IsShortSet self.now }
    {
        self.numbers.get(word).copied()
    }

    pub fn at(&self, number: u32) -> &[u8]
        requires { number < length self.now }
        ensures { slice_get self.now number ≡ Some result.now }
    {
        self.words[number as usize].as_slice()
    }

    // The number of a word, which goes last where it isn't there. A table that is full answers
    // `Memory`.
    #[tactic(auto, using(crate::proofs::WordTables::put_absent, crate::proofs::WordTables::put_present, crate::proofs::WordTables::get_last, crate::proofs::WordTables::distinct_more))]
    pub fn intern(&mut self, word: &[u8]) -> Result<u32, Memory>
        ensures number { IfOk result (λ n. slice_get self.new n ≡ Some word.now) }
        ensures ok { OnOk result (self.new ≡ with_word self.old word.now) }
        ensures err { OnErr result (self.new ≡ self.old) }
        ensures set { IsShortSet self.new }
    {
        if let Some(number) = self.find(word) {
            return Ok(number);
        }
        self.add(word)
    }

    pub fn copy(&self, alloc: Global) -> Result<Table, Memory>
        ensures { IfOk result (λ table. table ≡ self.now) }
    {
        let mut table = Table::new(alloc);
        let source = self.words.as_slice();
        for word in source {
            table.intern(word.as_slice())?;
        }
        Ok(table)
    }

    // One more word.
    fn add(&mut self, word: &[u8]) -> Result<u32, Memory>
        requires { Lacks self.old word.now }
        ensures ok { OnOk result (self.new ≡ self.old ++ word.now ∷ []) }
        ensures number { IfOk result (λ n. n ≡ length self.old) }
        ensures err { OnErr result (self.new ≡ self.old) }
        ensures set { IsShortSet self.new }
    {
        let number = self.words.len();
        if number >= u32::MAX as usize {
            return Err(Memory);
        }
        self.words.reserve(1)?;
        let alloc = *self.words.allocator();
        let own = word.to_vec(alloc)?;
        let key = word.to_vec(alloc)?;
        self.numbers.insert(key, number as u32)?;
        match self.words.push(own) {
            Ok(()) => Ok(number as u32),
            Err(_) => unreachable!(),
        }
    }
}
