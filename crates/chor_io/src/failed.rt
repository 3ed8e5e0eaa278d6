//! The names of calls that failed.

ghost use Rattle.std.specs.Prelude.{◌≡◌, ◌<◌, ◌++◌, ◌∷◌, [], IfOk, OnOk, vec_len, vec_capacity};
ghost use Rattle.chor_io.specs.Outside.{failed_after};

use crate::outside::Fetched;
use chor_base::{Memory, Word};
use std::alloc::Global;

/// The names of calls that failed, in order. Memory for a name is taken before its call is made,
/// so that noting a failure always succeeds.
#[derive(Drop)]
pub struct FailedNames {
    alloc: Global,
    pub names: Vec<Word>,
}

impl FailedNames {
    pub fn new(alloc: Global) -> Self
        ensures { result.names.items ≡ [] }
    {
        FailedNames {
            alloc,
            names: Vec::new(alloc),
        }
    }

    /// The name as it can be noted, with the room for it.
    pub fn prepare(&mut self, name: &[u8]) -> Result<Word, Memory>
        ensures names { self.new.names.items ≡ self.old.names.items }
        ensures room { OnOk result (vec_len self.new.names < vec_capacity self.new.names) }
        ensures word { IfOk result (λ word. word ≡ name.now) }
    {
        self.names.reserve(1)?;
        let word = Word::from_slice(self.alloc, name)?;
        Ok(word)
    }

    /// Notes the name where the call with this answer failed.
    pub fn settle(&mut self, name: Word, answer: Fetched)
        requires { vec_len self.old.names < vec_capacity self.old.names }
        ensures { self.new.names.items ≡ failed_after self.old.names.items name answer }
    {
        if answer != Fetched::Failed {
            return;
        }
        match self.names.push(name) {
            Ok(()) => {}
            Err(_) => unreachable!(),
        }
    }
}
