//! What a replay answers.

ghost use Rattle.std.specs.Prelude.{◌≡◌};
ghost use Rattle.replay.specs.declared.answer.ReplayFault.TheVariants.{Memory as NoMemory};

use chor_base::Memory;
use thiserror::Error;

/// Events that are a run.
#[derive(Clone, Copy, PartialEq, Eq)]
pub struct Replayed {
    /// How many events there are.
    pub count: u64,
    /// Whether every process has ended after them.
    pub ended: bool,
}

/// Why events weren't replayed.
#[derive(Clone, Copy, Debug, PartialEq, Eq, Error)]
pub enum ReplayFault {
    /// The event of this number, from 1, is the first that is no step.
    #[error("event {0} is no step of the network")]
    Unmatched(u64),
    /// There was no memory for the replay.
    #[error("out of memory")]
    Memory,
}

impl From<Memory> for ReplayFault {
    ghost from_gives = { λ _ fault. fault ≡ NoMemory };

    fn from(_error: Memory) -> Self {
        ReplayFault::Memory
    }
}
