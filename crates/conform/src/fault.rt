//! Why events are refused.

ghost use Rattle.std.specs.Prelude.{◌≡◌};
ghost use Rattle.conform.specs.declared.fault.ConformFault.TheVariants.{Memory as NoMemory};

use chor_base::Memory;
use thiserror::Error;

/// Why events don't conform, or aren't known to.
#[derive(Clone, Copy, Debug, PartialEq, Eq, Error)]
pub enum ConformFault {
    /// The event of this number, from 1, is the first that may not follow those before it.
    #[error("event {0} goes astray")]
    Astray(u64),
    /// The events conform, and some role has more to do.
    #[error("the events have not ended")]
    Closed,
    /// There was no memory to judge them.
    #[error("out of memory")]
    Memory,
}

impl From<Memory> for ConformFault {
    ghost from_gives = { λ _ fault. fault ≡ NoMemory };

    fn from(_error: Memory) -> Self {
        ConformFault::Memory
    }
}
