//! The names of options.

ghost use Rattle.std.specs.Prelude.{◌≡◌, ◌≤◌, Some};
ghost use Rattle.std.specs.Option.{option_to_list, ForSome};
ghost use Rattle.command_words.specs.Tables.{option_word, least_of, most_of, default_of};
ghost use Rattle.command_words.specs.Options.{IsBetween, IsValue};
ghost use Rattle.event_reader.specs.Readings.{IsReading};

/// The name of an option that sets a number of a run.
#[derive(Clone, Copy)]
pub enum OptionName {
    Seed,
    Steps,
    Workers,
    Capacity,
}

const ALL: [OptionName; 4] = [
    OptionName::Seed,
    OptionName::Steps,
    OptionName::Workers,
    OptionName::Capacity,
];

impl OptionName {
    /// The option with this word.
    pub fn of(word: &[u8]) -> Option<OptionName>
        ensures { IsReading (λ name. Unit {0}) option_word word.now result }
    {
        ALL.iter().copied().find(|name| name.word() == word)
    }

    // Its word.
    fn word(self) -> &'static [u8]
        ensures { result.now ≡ option_word self }
    {
        match self {
            OptionName::Seed => b"--seed",
            OptionName::Steps => b"--steps",
            OptionName::Workers => b"--workers",
            OptionName::Capacity => b"--capacity",
        }
    }

    /// The least number that it is set to.
    pub fn least(self) -> u64
        ensures { result ≡ least_of self }
    {
        match self {
            OptionName::Seed | OptionName::Workers => 0,
            OptionName::Steps | OptionName::Capacity => 1,
        }
    }

    /// The greatest number that it is set to.
    pub fn most(self) -> u64
        ensures { result ≡ most_of self }
    {
        match self {
            OptionName::Seed => 4_294_967_295,
            OptionName::Steps | OptionName::Capacity => 1_000_000,
            OptionName::Workers => 16,
        }
    }

    /// The number that it has, where it is set to this one, or isn't set and has this default.
    #[tactic(auto, using(crate::proofs::Names::value_is, crate::proofs::Names::value_bounded))]
    pub fn value(self, given: Option<u64>, default: u64) -> u64
        requires default { default_of self ≡ Some default }
        requires within { ForSome given (IsBetween (least_of self) (most_of self)) }
        ensures value { IsValue self (option_to_list given) (Some result) }
        ensures bounded { result ≤ most_of self }
    {
        given.unwrap_or(default)
    }
}
