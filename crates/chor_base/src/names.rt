//! Names and their numbers.

ghost use Rattle.std.specs.Prelude.{◌≡◌, ◌<◌, ◌^◌, [], length, slice_get, Some, OnOk, OnErr, IfOk, IfSome, IfNone};
ghost use Rattle.chor_base.specs.Words.{with_word, AllDistinct, Lacks};

use crate::memory::Memory;
use crate::table::Table;
use std::alloc::Global;
use std::marker::Model;

/// The number of a name: its place in the table that it was put into.
#[derive(Clone, Copy, Debug, PartialEq, Eq, Hash)]
pub struct NameId(pub u32);

/// Names, each once, in the order in which they came, fewer than 2^32 of them.
#[derive(Drop)]
pub struct Names {
    table: Table,
}

impl Model for Names {
    ghost use Rattle.std.specs.Prelude.{List, ℕ};

    ghost Value = { List (List ℕ) };

    ghost view = { λ a. a.table };
}

impl Names {
    /// No names. It takes no memory.
    pub fn new(alloc: Global) -> Self
        ensures { result ≡ [] }
    {
        Names {
            table: Table::new(alloc),
        }
    }

    /// How many names there are.
    pub fn len(&self) -> usize
        ensures len { result ≡ length self.now }
        ensures distinct { AllDistinct self.now }
        ensures short { length self.now < 2 ^ 32 }
    {
        self.table.len()
    }

    /// The number of a name that is there.
    pub fn find(&self, word: &[u8]) -> Option<NameId>
        ensures found { IfSome result (λ n. slice_get self.now n.0 ≡ Some word.now) }
        ensures absent { IfNone result (Lacks self.now word.now) }
    {
        let number = self.table.find(word)?;
        Some(NameId(number))
    }

    /// The bytes of a name.
    pub fn at(&self, name: NameId) -> &[u8]
        requires { name.0 < length self.now }
        ensures { slice_get self.now name.0 ≡ Some result.now }
    {
        self.table.at(name.0)
    }

    /// The number of a name, which goes last where it isn't there yet. A table of 2^32 - 1
    /// names answers `Memory`.
    pub fn intern(&mut self, word: &[u8]) -> Result<NameId, Memory>
        ensures number { IfOk result (λ n. slice_get self.new n.0 ≡ Some word.now) }
        ensures ok { OnOk result (self.new ≡ with_word self.old word.now) }
        ensures err { OnErr result (self.new ≡ self.old) }
        ensures distinct { AllDistinct self.new }
        ensures short { length self.new < 2 ^ 32 }
    {
        let number = self.table.intern(word)?;
        Ok(NameId(number))
    }

    /// The same names with the same numbers.
    pub fn copy(&self, alloc: Global) -> Result<Names, Memory>
        ensures { IfOk result (λ names. names ≡ self.now) }
    {
        let table = self.table.copy(alloc)?;
        Ok(Names { table })
    }
}
