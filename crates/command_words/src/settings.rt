//! Reading the options of a run.

ghost use Rattle.std.specs.Prelude.{◌≡◌, true, MatchOption, IfSome};
ghost use Rattle.std.specs.Option.{option_to_list, ForSome};
ghost use Rattle.command_words.specs.declared.option_name.OptionName.{OptionName as NameOfOption};
ghost use Rattle.command_words.specs.declared.option_name.OptionName.TheVariants.{Capacity};
ghost use Rattle.command_words.specs.Between.{is_capacity};
ghost use Rattle.command_words.specs.Tables.{least_of, most_of};
ghost use Rattle.command_words.specs.Options.{AreOptions, AreNoOptions, IsSetting, IsNoSetting, IsValue, number_in, set_in, IsAmong, Adds, AreBounded, IsBetween};

use crate::command_name::CommandName;
use crate::numbers::number_between;
use crate::option_name::OptionName;
use crate::options::Options;
use chor_base::Word;

// An option with its number.
#[derive(Clone, Copy)]
pub struct Setting {
    pub name: OptionName,
    pub number: u64,
}

// The numbers that options were set to so far.
#[derive(Clone, Copy)]
pub struct Settings {
    pub seed: Option<u64>,
    pub steps: Option<u64>,
    pub workers: Option<u64>,
    pub capacity: Option<u64>,
}

/// The options that these words set, in any order, each at most once. It takes no memory.
pub fn options_of(command: CommandName, words: &[Word]) -> Option<Options>
    ensures { MatchOption result (AreNoOptions command words.now) (AreOptions command words.now) }
{
    let mut settings = Settings {
        seed: None,
        steps: None,
        workers: None,
        capacity: None,
    };
    let mut rest = words;
    while let [option, number, more @ ..] = rest {
        let setting = setting_of(command, option.as_slice(), number.as_slice())?;
        settings = settings.with(setting)?;
        rest = more;
    }
    if rest.is_empty() {
        Some(settings.options())
    } else {
        None
    }
}

// The setting of an option that the command takes.
fn setting_of(command: CommandName, option: &[u8], number: &[u8]) -> Option<Setting>
    ensures { MatchOption result (IsNoSetting command option.now number.now) (IsSetting command option.now number.now) }
{
    let name = OptionName::of(option)?;
    if !command.takes(name) {
        return None;
    }
    let number = number_between(number, name.least(), name.most())?;
    Some(Setting { name, number })
}

impl Settings {
    // These and one more, which isn't among them.
    fn with(self, setting: Setting) -> Option<Settings>
        requires { IsBetween (least_of setting.name) (most_of setting.name) setting.number }
        ensures bounded { AreBounded self → IfSome result AreBounded }
        ensures added { MatchOption result (IsAmong self setting.name) (Adds self setting) }
    {
        match setting.name {
            OptionName::Seed if self.seed.is_none() => Some(Settings {
                seed: Some(setting.number),
                ..self
            }),
            OptionName::Steps if self.steps.is_none() => Some(Settings {
                steps: Some(setting.number),
                ..self
            }),
            OptionName::Workers if self.workers.is_none() => Some(Settings {
                workers: Some(setting.number),
                ..self
            }),
            OptionName::Capacity if self.capacity.is_none() => Some(Settings {
                capacity: Some(setting.number),
                ..self
            }),
            _ => None,
        }
    }

    // The options that they make.
    fn options(self) -> Options
        requires { AreBounded self }
        ensures { (name : NameOfOption) → IsValue name (option_to_list (set_in name self)) (number_in name result) }
    {
        Options {
            seed: OptionName::Seed.value(self.seed, 0),
            steps: OptionName::Steps.value(self.steps, 100_000),
            workers: OptionName::Workers.value(self.workers, 0) as u32,
            capacity: capacity_of(self.capacity),
        }
    }
}

// The capacity that the option is set to, if it is.
#[tactic(auto, using(crate::proofs::Names::between_capacity))]
fn capacity_of(given: Option<u64>) -> Option<u32>
    requires { ForSome given (IsBetween 1 1000000) }
    ensures value { IsValue Capacity (option_to_list given) result }
    ensures bounded { is_capacity result ≡ true }
{
    match given {
        Some(number) => Some(number as u32),
        None => None,
    }
}
