//! One host function.

ghost use Rattle.std.specs.Prelude.{◌≡◌, ◌↔◌, ℤ, IsTrue};
ghost use Rattle.std.specs.Int.{w64};
ghost use Rattle.std.specs.Int.RustNames.{FitsSigned};
ghost use Rattle.chor_base.specs.Meaning.{IsAllowed};
ghost use Rattle.chor_host.specs.Answers.{IsAnswerable, IsSized};
ghost use Rattle.chor_host.specs.Props.{allowing};

use crate::operations::value_of;
use chor_base::{Meaning, Word};

/// A function of the program with its name, whose every answer is one that its meaning allows. The
/// meaning may be a range: then another run may get another answer to the same two numbers.
#[derive(Drop)]
pub struct HostFn {
    pub name: Word,
    pub meaning: Meaning,
    call: fn(i64, i64) -> i64,
    ghost answerable: { IsAnswerable meaning } by { Prim.hlevel allowing },
    ghost sized: { IsSized meaning } by { Prim.hlevel allowing },
    ghost callable: { (a b : ℤ) → FitsSigned w64 a → FitsSigned w64 b → pre call a b },
    ghost allowed: { (a b v : ℤ) → FitsSigned w64 a → FitsSigned w64 b → post call a b v → IsAllowed meaning a b v } by { Prim.hlevel allowing },
}

impl HostFn {
    /// A host function of this name. It calls the function once, and takes no memory.
    pub fn new(name: Word, meaning: Meaning, call: fn(i64, i64) -> i64) -> Self
        requires callable { (a b : ℤ) → FitsSigned w64 a → FitsSigned w64 b → pre call a b }
        requires allowed { (a b v : ℤ) → FitsSigned w64 a → FitsSigned w64 b → post call a b v → IsAllowed meaning a b v }
        ensures name { result.name ≡ name }
        ensures meaning { result.meaning ≡ meaning }
    {
        // What it answers here shows that its meaning allows an answer to any two numbers, since a
        // range is the same for all.
        let _ = call(0, 0);
        HostFn {
            name,
            meaning,
            call,
        }
    }

    /// Calls the function: an answer that its meaning allows. It takes no memory.
    pub fn ask(&self, a: i64, b: i64) -> i64
        ensures allowed { IsAllowed self.now.meaning a b result }
    {
        (self.call)(a, b)
    }

    /// Whether the meaning of the function allows this answer to two numbers. It takes no memory, and
    /// doesn't call the function.
    pub fn allows(&self, a: i64, b: i64, value: i64) -> bool
        ensures { IsTrue result ↔ IsAllowed self.now.meaning a b value }
    {
        match self.meaning {
            Meaning::Exact(op) => value == value_of(op, a, b),
            Meaning::Within(low, high) => low <= value && value <= high,
        }
    }
}
