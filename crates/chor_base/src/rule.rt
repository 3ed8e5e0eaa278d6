//! Rules, places and refusals.

use crate::list::Word;
use crate::memory::Memory as NoMemory;

/// Where a byte stands: its line, and its column in bytes, both from 1.
#[derive(Clone, Copy, Debug, PartialEq, Eq)]
pub struct Place {
    pub line: u32,
    pub col: u32,
}

/// A rule that a file can violate. The manual of the language says what each one asks.
#[derive(Clone, Copy, Debug, PartialEq, Eq)]
pub enum Rule {
    L1,
    L2,
    L3,
    L4,
    L5,
    P1,
    P2,
    P3,
    N1,
    N2,
    N3,
    G1,
    G2,
    G3,
    V1,
    V2,
    V3,
    T1,
    T2,
    T3,
    T4,
    T5,
    T6,
    T7,
    T8,
    T9,
    U1,
    U2,
    M1,
    M2,
    E1,
    E2,
    E3,
    E4,
}

/// The rule that a file violates, and where. `who` is the process or role that the rule names.
#[derive(Debug, Drop)]
pub struct Refusal {
    pub rule: Rule,
    pub place: Place,
    pub who: Option<Word>,
}

/// Why a file wasn't taken.
#[derive(Debug, Drop)]
pub enum Denied {
    /// It violates a rule.
    Refused(Refusal),
    /// There was no memory.
    Memory,
}

impl From<NoMemory> for Denied {
    ghost use Rattle.std.specs.Prelude.{◌≡◌};
    ghost use Rattle.chor_base.specs.declared.rule.Denied.TheVariants.{Memory};

    ghost from_gives = { λ _ d. d ≡ Memory };

    fn from(_error: NoMemory) -> Self {
        Denied::Memory
    }
}
