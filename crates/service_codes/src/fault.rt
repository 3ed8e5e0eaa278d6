//! Why a service has no code.

ghost use Rattle.std.specs.Prelude.{◌≡◌};
ghost use Rattle.service_codes.specs.declared.fault.ServiceFault.TheVariants.{Memory as NoMemory};

use chor_base::{Memory, NameId, Place};
use thiserror::Error;

/// Why the service roles of a file have no codes.
#[derive(Clone, Copy, Debug, PartialEq, Eq, Error)]
pub enum ServiceFault {
    /// No code is above those of this role after the starts of the channel whose name stands at
    /// this place.
    #[error("a service can't be one program for all its starts")]
    Clash(Place, NameId),
    /// There was no memory.
    #[error("out of memory")]
    Memory,
}

impl From<Memory> for ServiceFault {
    ghost from_gives = { λ _ e. e ≡ NoMemory };

    fn from(_fault: Memory) -> Self {
        ServiceFault::Memory
    }
}
