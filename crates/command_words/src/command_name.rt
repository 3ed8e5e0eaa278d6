//! The names of commands.

ghost use Rattle.std.specs.Prelude.{◌≡◌};
ghost use Rattle.command_words.specs.Tables.{command_word, file_count, takes};
ghost use Rattle.event_reader.specs.Readings.{IsReading};

use crate::option_name::OptionName;

/// The name of a command.
#[derive(Clone, Copy)]
pub enum CommandName {
    Check,
    Fmt,
    Types,
    Project,
    Run,
    Exec,
    Link,
    Replay,
    Order,
    Conform,
    Resume,
    Gen,
}

const ALL: [CommandName; 12] = [
    CommandName::Check,
    CommandName::Fmt,
    CommandName::Types,
    CommandName::Project,
    CommandName::Run,
    CommandName::Exec,
    CommandName::Link,
    CommandName::Replay,
    CommandName::Order,
    CommandName::Conform,
    CommandName::Resume,
    CommandName::Gen,
];

impl CommandName {
    /// The command with this word.
    pub fn of(word: &[u8]) -> Option<CommandName>
        ensures { IsReading (λ name. Unit {0}) command_word word.now result }
    {
        ALL.iter().copied().find(|name| name.word() == word)
    }

    // Its word.
    fn word(self) -> &'static [u8]
        ensures { result.now ≡ command_word self }
    {
        match self {
            CommandName::Check => b"check",
            CommandName::Fmt => b"fmt",
            CommandName::Types => b"types",
            CommandName::Project => b"project",
            CommandName::Run => b"run",
            CommandName::Exec => b"exec",
            CommandName::Link => b"link",
            CommandName::Replay => b"replay",
            CommandName::Order => b"order",
            CommandName::Conform => b"conform",
            CommandName::Resume => b"resume",
            CommandName::Gen => b"gen",
        }
    }

    /// How many files it names.
    pub fn file_count(self) -> usize
        ensures { result ≡ file_count self }
    {
        match self {
            CommandName::Gen => 0,
            CommandName::Check
            | CommandName::Fmt
            | CommandName::Types
            | CommandName::Project
            | CommandName::Run
            | CommandName::Exec => 1,
            CommandName::Link
            | CommandName::Replay
            | CommandName::Order
            | CommandName::Conform
            | CommandName::Resume => 2,
        }
    }

    /// Whether it takes this option.
    pub fn takes(self, option: OptionName) -> bool
        ensures { result ≡ takes self option }
    {
        match self {
            CommandName::Exec => true,
            CommandName::Run | CommandName::Link => !matches!(option, OptionName::Capacity),
            CommandName::Resume => matches!(option, OptionName::Seed | OptionName::Steps),
            _ => false,
        }
    }
}
