//! Why a block has no codes.

ghost use Rattle.std.specs.Prelude.{◌≡◌};
ghost use Rattle.block_codes.specs.declared.stop.Stop.TheVariants.{Memory as NoMemory};

use chor_base::{Memory, NameId, Place};
use thiserror::Error;

/// Why the processes of a block have no codes.
#[derive(Clone, Copy, Debug, Error)]
pub enum Stop {
    /// The process can't tell the branches of the conditional at this place apart.
    #[error("a process can't tell two branches apart")]
    Clash(Place, NameId),
    /// There was no memory.
    #[error("out of memory")]
    Memory,
}

impl From<Memory> for Stop {
    ghost from_gives = { λ _ e. e ≡ NoMemory };

    fn from(_fault: Memory) -> Self {
        Stop::Memory
    }
}
