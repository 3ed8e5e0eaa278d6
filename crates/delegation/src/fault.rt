//! Why holders don't change.

use chor_base::{Memory as NoMemory, Rule as Violated};
use thiserror::Error;

/// Why a session isn't started or a role isn't passed on.
#[derive(Debug, Drop, Error)]
pub enum OwnFault {
    /// It would violate a rule.
    #[error("a rule is violated")]
    Rule(Violated),
    /// There was no memory.
    #[error("out of memory")]
    Memory,
}

impl From<NoMemory> for OwnFault {
    ghost use Rattle.std.specs.Prelude.{◌≡◌};
    ghost use Rattle.delegation.specs.declared.fault.OwnFault.TheVariants.{Memory};

    ghost from_gives = { λ _ fault. fault ≡ Memory };

    fn from(_error: NoMemory) -> Self {
        OwnFault::Memory
    }
}
