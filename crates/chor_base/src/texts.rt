//! Literal texts and their numbers.

ghost use Rattle.std.specs.Prelude.{◌≡◌, ◌<◌, ◌^◌, [], length, slice_get, Some, OnOk, OnErr, IfOk, IfSome, IfNone};
ghost use Rattle.chor_base.specs.Words.{with_word, AllDistinct, Lacks};

use crate::memory::Memory;
use crate::table::Table;
use std::alloc::Global;
use std::marker::Model;

/// Literal texts without their quotes, each once, in the order in which they came, fewer than 2^32 of them.
#[derive(Drop)]
pub struct Texts {
    table: Table,
}

impl Model for Texts {
    ghost use Rattle.std.specs.Prelude.{List, ℕ};

    ghost Value = { List (List ℕ) };

    ghost view = { λ a. a.table };
}

impl Texts {
    /// No texts. It takes no memory.
    pub fn new(alloc: Global) -> Self
        ensures { result ≡ [] }
    {
        Texts {
            table: Table::new(alloc),
        }
    }

    /// How many texts there are.
    pub fn len(&self) -> usize
        ensures len { result ≡ length self.now }
        ensures distinct { AllDistinct self.now }
        ensures short { length self.now < 2 ^ 32 }
    {
        self.table.len()
    }

    /// The number of a text that is there.
    pub fn find(&self, text: &[u8]) -> Option<u32>
        ensures found { IfSome result (λ n. slice_get self.now n ≡ Some text.now) }
        ensures absent { IfNone result (Lacks self.now text.now) }
    {
        self.table.find(text)
    }

    /// The bytes of a text.
    pub fn at(&self, text: u32) -> &[u8]
        requires { text < length self.now }
        ensures { slice_get self.now text ≡ Some result.now }
    {
        self.table.at(text)
    }

    /// The number of a text, which goes last where it isn't there yet. A table of 2^32 - 1
    /// texts answers `Memory`.
    pub fn intern(&mut self, text: &[u8]) -> Result<u32, Memory>
        ensures number { IfOk result (λ n. slice_get self.new n ≡ Some text.now) }
        ensures ok { OnOk result (self.new ≡ with_word self.old text.now) }
        ensures err { OnErr result (self.new ≡ self.old) }
        ensures distinct { AllDistinct self.new }
        ensures short { length self.new < 2 ^ 32 }
    {
        let number = self.table.intern(text)?;
        Ok(number)
    }

    /// The same texts with the same numbers.
    pub fn copy(&self, alloc: Global) -> Result<Texts, Memory>
        ensures { IfOk result (λ texts. texts ≡ self.now) }
    {
        let table = self.table.copy(alloc)?;
        Ok(Texts { table })
    }
}
