//! What a command makes of its files.

ghost use Rattle.std.specs.Prelude.{IsTrue};
ghost use Rattle.chor_cmd.specs.Status.{comes_with_text};

use crate::status::Status;
use chor_base::{Denied, Memory as NoMemory, Refusal, Word};

/// What a command has made: the text that it writes, and the status with which the call ends then.
#[derive(Drop)]
pub struct Ending {
    pub text: Vec<u8>,
    pub status: Status,
    ghost written: { IsTrue (comes_with_text status) },
}

/// Why a command has made no such text.
#[derive(Drop)]
pub enum Stop<'a> {
    /// A file violates a rule.
    Refused(Refusal),
    /// Reading the file of this name failed.
    ReadFault(&'a Word),
    /// The file of this name is longer than its limit.
    TooLarge(&'a Word),
    /// Memory ran out.
    Memory,
}

impl From<NoMemory> for Stop<'_> {
    ghost use Rattle.std.specs.Prelude.{◌≡◌};
    ghost use Rattle.chor_cmd.specs.declared.ending.Stop.TheVariants.{Memory};

    ghost from_gives = { λ _ stop. stop ≡ Memory };

    fn from(_error: NoMemory) -> Self {
        Stop::Memory
    }
}

impl From<Denied> for Stop<'_> {
    ghost use Rattle.std.specs.Prelude.{◌≡◌};
    ghost use Rattle.chor_cmd.specs.Stops.{stop_of};

    ghost from_gives = { λ denied stop. stop ≡ stop_of denied };

    fn from(denied: Denied) -> Self {
        match denied {
            Denied::Refused(refusal) => Stop::Refused(refusal),
            Denied::Memory => Stop::Memory,
        }
    }
}
