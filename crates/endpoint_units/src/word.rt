//! How units begin.

ghost use Rattle.std.specs.Prelude.{IfSome, IfNone};
ghost use Rattle.grammar.specs.Classes.{a_word};
ghost use Rattle.grammar.specs.Readers.{HasOne};
ghost use Rattle.endpoint_reader.specs.Tokens.{from};
ghost use Rattle.endpoint_units.specs.Words.{first_word, LacksUnit};

use endpoint_reader::Input;

/// The word with which a unit begins.
#[derive(Clone, Copy, PartialEq, Eq)]
pub enum UnitWord {
    Channel,
    Procedure,
    Service,
    Process,
}

/// The word with which a unit begins that stands here, and the place after it.
pub fn unit_word(input: &Input, at: usize) -> Option<(UnitWord, usize)>
    ensures found { IfSome result (λ x. HasOne (a_word (first_word x.0)) (from input.now at) (from input.now x.1)) }
    ensures none { IfNone result (LacksUnit (from input.now at)) }
{
    if let Some(after) = input.after_word(at, b"channel") {
        return Some((UnitWord::Channel, after));
    }
    if let Some(after) = input.after_word(at, b"procedure") {
        return Some((UnitWord::Procedure, after));
    }
    if let Some(after) = input.after_word(at, b"service") {
        return Some((UnitWord::Service, after));
    }
    match input.after_word(at, b"process") {
        Some(after) => Some((UnitWord::Process, after)),
        None => None,
    }
}
