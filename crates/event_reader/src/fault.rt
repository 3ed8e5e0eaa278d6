//! Why a line isn't read.

ghost use Rattle.std.specs.Prelude.{◌≡◌};
ghost use Rattle.event_reader.specs.declared.fault.LineFault.TheVariants.{Memory as NoMemory};

use chor_base::Memory;
use thiserror::Error;

/// Why a line gives no event.
#[derive(Clone, Copy, Debug, PartialEq, Eq, Error)]
pub enum LineFault {
    /// The line is the text of no event with that number whose names and texts the book has.
    #[error("no event has this text")]
    BadLine,
    /// There was no memory.
    #[error("out of memory")]
    Memory,
}

impl From<Memory> for LineFault {
    ghost from_gives = { λ _ fault. fault ≡ NoMemory };

    fn from(_error: Memory) -> Self {
        LineFault::Memory
    }
}
