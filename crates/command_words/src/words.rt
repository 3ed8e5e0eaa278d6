//! The words of the command line.

ghost use Rattle.std.specs.Prelude.{◌↔◌, List, ℕ, MatchOption, IsTrue, All};
ghost use Rattle.command_words.specs.Words.{IsFileWord, IsCommand, IsNoCommand, IsForm, HasNoForm};

use crate::command_name::CommandName;
use crate::numbers::{order_of, rounds_of};
use crate::options::Options;
use crate::order_form::OrderForm;
use crate::settings::options_of;
use chor_base::{List, Word};

/// The words of the command line, without the program's name.
#[derive(Drop)]
pub struct Words {
    pub items: List<Word>,
}

/// What the words ask for, of the files that they name.
#[derive(Clone, Copy, PartialEq, Eq)]
pub enum Command {
    /// `check FILE`: judges the file.
    Check,
    /// `fmt FILE`: writes the canonical text.
    Fmt,
    /// `types FILE`: writes the local types of all roles.
    Types,
    /// `project FILE`: writes the endpoint programs.
    Project,
    /// `run FILE`, and options: writes the transcript of a run.
    Run(Options),
    /// `exec FILE`, and options: writes the transcript of a run of endpoint programs.
    Exec(Options),
    /// `link FILE ENDPOINTS`, and options: runs the file with these endpoint programs in place of its own.
    Link(Options),
    /// `replay FILE EVENTS`: replays the events of a transcript.
    Replay,
    /// `order FILE EVENTS`, and what is asked for: writes how the events depend on each other.
    Order(OrderForm),
    /// `conform FILE EVENTS`: judges the events by the protocols alone.
    Conform,
    /// `resume FILE EVENTS`, and options: goes on with the run of the events.
    Resume(Options),
    /// `gen N`, and maybe `--text`: makes the file of so many rounds, and runs it or writes its text.
    Gen(u32, bool),
}

impl Command {
    // The command of this name whose files these words follow.
    fn of(name: CommandName, rest: &[Word]) -> Option<Command>
        ensures { MatchOption result (IsNoCommand name rest.now) (IsCommand name rest.now) }
    {
        match name {
            CommandName::Run => Some(Command::Run(options_of(name, rest)?)),
            CommandName::Exec => Some(Command::Exec(options_of(name, rest)?)),
            CommandName::Link => Some(Command::Link(options_of(name, rest)?)),
            CommandName::Resume => Some(Command::Resume(options_of(name, rest)?)),
            CommandName::Order => Some(Command::Order(order_of(rest)?)),
            CommandName::Gen => {
                let (count, whole) = rounds_of(rest)?;
                Some(Command::Gen(count, whole))
            }
            CommandName::Check => rest.is_empty().then_some(Command::Check),
            CommandName::Fmt => rest.is_empty().then_some(Command::Fmt),
            CommandName::Types => rest.is_empty().then_some(Command::Types),
            CommandName::Project => rest.is_empty().then_some(Command::Project),
            CommandName::Replay => rest.is_empty().then_some(Command::Replay),
            CommandName::Conform => rest.is_empty().then_some(Command::Conform),
        }
    }
}

/// What the words ask for, and those of them that name files, in order; `None` where they are of no form. It takes no memory.
pub fn form_of(words: &Words) -> Option<(Command, &[Word])>
    ensures { MatchOption result (HasNoForm words.now) (λ form. IsForm words.now form.0 form.1.now) }
{
    let (word, rest) = words.items.as_slice().split_first()?;
    let name = CommandName::of(word.as_slice())?;
    let (files, options) = rest.split_at_checked(name.file_count())?;
    if !are_file_words(files) {
        return None;
    }
    let command = Command::of(name, options)?;
    Some((command, files))
}

/// The command that the words ask for; `None` where they are of no form. It takes no memory.
pub fn read_words(words: &Words) -> Option<Command>
    ensures { MatchOption result (HasNoForm words.now) (λ command. (names : List (List ℕ)) × IsForm words.now command names) }
{
    let (command, _) = form_of(words)?;
    Some(command)
}

// Whether each word names a file.
fn are_file_words(words: &[Word]) -> bool
    ensures { IsTrue result ↔ All IsFileWord words.now }
{
    words.iter().all(|word| is_file_word(word.as_slice()))
}

// Whether a word names a file: it isn't empty, is UTF-8, and doesn't begin with `-`.
fn is_file_word(word: &[u8]) -> bool
    ensures { IsTrue result ↔ IsFileWord word.now }
{
    match word.first() {
        None => false,
        Some(b'-') => false,
        Some(_) => str::from_utf8(word).is_ok(),
    }
}
