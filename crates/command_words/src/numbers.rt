//! Numbers among the words.

ghost use Rattle.std.specs.Prelude.{◌≡◌, ◌<◌, ◌^◌, ℕ, Bool, MatchOption};
ghost use Rattle.std.specs.Fmt.{decimal};
ghost use Rattle.event_reader.specs.Readings.{IsReading};
ghost use Rattle.command_words.specs.declared.order_form.OrderForm.{OrderForm as FormOfOrder};
ghost use Rattle.command_words.specs.Options.{IsBetween};
ghost use Rattle.command_words.specs.Words.{IsOrder, AreRounds};

use crate::order_form::OrderForm;
use crate::word::is_word;
use chor_base::Word;
use event_reader::number_of;

// How many rounds a generated file has at most.
const MOST_ROUNDS: u64 = 4_000;

// The greatest number of an event.
const MOST_EVENTS: u64 = 1_000_000;

/// The number that is written so, if it is between these two. It takes no memory.
pub fn number_between(word: &[u8], least: u64, most: u64) -> Option<u64>
    ensures { IsReading (IsBetween least most) decimal word.now result }
{
    let number = number_of(word)?;
    if number < least || number > most {
        return None;
    }
    Some(number)
}

/// A number of rounds, and whether the option follows that asks for the text. It takes no memory.
pub fn rounds_of(rest: &[Word]) -> Option<(u32, bool)>
    ensures { MatchOption result ((n : ℕ) (whole : Bool) → AreRounds rest.now n whole → ⊥) (λ r. AreRounds rest.now r.0 r.1) }
{
    let (number, whole) = match rest {
        [number] => (number, false),
        [number, option] if is_word(option, b"--text".as_slice()) => (number, true),
        _ => return None,
    };
    let count = number_between(number.as_slice(), 1, MOST_ROUNDS)?;
    Some((count as u32, whole))
}

/// What `order` is asked for. It takes no memory.
pub fn order_of(rest: &[Word]) -> Option<OrderForm>
    ensures { MatchOption result ((form : FormOfOrder) → IsOrder rest.now form → ⊥) (IsOrder rest.now) }
{
    match rest {
        [] => Some(OrderForm::Whole),
        [option, event] if is_word(option, b"--lead".as_slice()) => {
            Some(OrderForm::Lead(event_of(event)?))
        }
        [option, first, second] if is_word(option, b"--pair".as_slice()) => {
            Some(OrderForm::Pair(event_of(first)?, event_of(second)?))
        }
        _ => None,
    }
}

// The number of an event.
fn event_of(word: &Word) -> Option<u64>
    ensures { IsReading (IsBetween 1 1000000) decimal word.now result }
{
    number_between(word.as_slice(), 1, MOST_EVENTS)
}
