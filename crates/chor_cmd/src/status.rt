//! How a call of the program ends.

ghost use Rattle.std.specs.Prelude.{◌≡◌};
ghost use Rattle.chor_cmd.specs.Status.{number_of};

/// How a call of the program ends.
#[derive(Clone, Copy, PartialEq, Eq)]
pub enum Status {
    /// The command is done.
    Done,
    /// The file violates a rule.
    Refused,
    /// The words are of no form.
    Usage,
    /// Reading the file failed.
    ReadFault,
    /// Writing failed.
    WriteFault,
    /// There was no memory.
    Memory,
    /// A line of an events file doesn't match.
    Unmatched,
    /// Endpoint programs can't go on.
    Stuck,
    /// The file is longer than its limit.
    TooLarge,
}

impl Status {
    /// The number with which the process ends.
    pub fn number(&self) -> u8
        ensures { result ≡ number_of self.now }
    {
        match self {
            Status::Done => 0,
            Status::Refused => 1,
            Status::Usage => 2,
            Status::ReadFault => 3,
            Status::WriteFault => 4,
            Status::Memory => 5,
            Status::Unmatched => 6,
            Status::Stuck => 7,
            Status::TooLarge => 8,
        }
    }
}
