//! Why an order isn't told.

ghost use Rattle.std.specs.Prelude.{◌≡◌};
ghost use Rattle.accepted_orders.specs.declared.fault.OrderFault.TheVariants.{Memory as NoMemory};
ghost use Rattle.accepted_orders.specs.Numbers.{order_fault};

use chor_base::Memory;
use replay::ReplayFault;
use thiserror::Error;

/// Why the order of a file's events wasn't told.
#[derive(Clone, Copy, Debug, PartialEq, Eq, Error)]
pub enum OrderFault {
    /// The line of this number, from 1, is the first that doesn't match.
    #[error("line {0} does not match")]
    Unmatched(u64),
    /// No event has this number.
    #[error("no event has number {0}")]
    Beyond(u64),
    /// There was no memory.
    #[error("out of memory")]
    Memory,
}

impl From<Memory> for OrderFault {
    ghost from_gives = { λ _ fault. fault ≡ NoMemory };

    fn from(_error: Memory) -> Self {
        OrderFault::Memory
    }
}

impl From<ReplayFault> for OrderFault {
    ghost from_gives = { λ fault answer. answer ≡ order_fault fault };

    fn from(fault: ReplayFault) -> Self {
        match fault {
            ReplayFault::Unmatched(line) => OrderFault::Unmatched(line),
            ReplayFault::Memory => OrderFault::Memory,
        }
    }
}
