//! Why endpoint programs can't be linked.

ghost use Rattle.std.specs.Prelude.{◌≡◌};
ghost use Rattle.endpoint_link.specs.declared.fault.LinkFault.TheVariants.{Memory as OutOfMemory};

use chor_base::Memory;

/// The rules of linking.
#[derive(Clone, Copy, PartialEq, Eq)]
pub enum LinkRule {
    /// The base has the unit with other roles, other session names, or code that this one isn't
    /// above.
    K1,
    /// The base has no such unit.
    K2,
}

/// A unit of the given programs, by its place in the list of its kind.
#[derive(Clone, Copy, PartialEq, Eq)]
pub enum Unit {
    Channel(u32),
    Procedure(u32),
    Service(u32),
    Process(u32),
}

/// Why endpoint programs can't be linked.
#[derive(Clone, Copy, PartialEq, Eq)]
pub enum LinkFault {
    /// The first given unit that violates a rule, and the rule.
    Refused(LinkRule, Unit),
    /// Out of memory.
    Memory,
}

impl From<Memory> for LinkFault {
    ghost from_gives = { λ _ fault. fault ≡ OutOfMemory };

    fn from(_error: Memory) -> Self {
        LinkFault::Memory
    }
}
