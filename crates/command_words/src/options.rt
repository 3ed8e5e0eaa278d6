//! The options of a run.

ghost use Rattle.std.specs.Prelude.{◌≡◌, ◌<◌, ◌≤◌, ◌^◌, true};
ghost use Rattle.command_words.specs.Between.{is_capacity};

/// What the options of a run say.
#[derive(Clone, Copy, PartialEq, Eq)]
pub struct Options {
    /// The seed of the pick rule.
    pub seed: u64,
    /// How many events the run has at most.
    pub steps: u64,
    /// How many workers make the run; 0 where it is made by the pick rule.
    pub workers: u32,
    /// How many messages a queue holds at most, if the words say so.
    pub capacity: Option<u32>,
    ghost small: { seed < 2 ^ 32 },
    ghost few: { steps ≤ 1000000 },
    ghost crew: { workers ≤ 16 },
    ghost room: { is_capacity capacity ≡ true },
}
