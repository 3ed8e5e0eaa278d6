//! Whole endpoint files.

ghost use Rattle.std.specs.Prelude.{◌≡◌, [], IfOk, IfErr, map};
ghost use Rattle.grammar.specs.Readers.{Reads, Halts, Tells};
ghost use Rattle.endpoint_grammar.specs.Grammar.{units_of, endpoints};
ghost use Rattle.endpoint_grammar.specs.Values.{rules, units_from};
ghost use Rattle.endpoint_reader.specs.Tokens.{lexeme_of, from};
ghost use Rattle.endpoint_reader.specs.Known.{IsWrittenThere};
ghost use Rattle.endpoint_reader.specs.Files.{units_written};
ghost use Rattle.endpoint_units.specs.Wholes.{IsWritten, IsRefusal, nameless};

use crate::parts::Parts;
use crate::unit::read_unit;
use crate::word::unit_word;
use chor_base::{Denied, Refusal};
use chor_lexer::Mark;
use endpoint_reader::{Input, Written};
use std::alloc::Global;

/// The units of the file that the tokens are.
///
/// It is refused by E1 at the first token that no file has there after those before it, and by E4
/// at the first token of what is too many: names of a list, tokens of an expression, nodes of a
/// path or processes.
pub fn read_endpoints(alloc: Global, input: &Input) -> Result<Written, Denied>
    ensures found { IfOk result (λ w. IsWritten (map (lexeme_of input.now) input.now.tokens.now.items) (units_written input.now w)) }
    ensures known { IfOk result (IsWrittenThere input.now) }
    ensures denied { IfErr result (IsRefusal (map (lexeme_of input.now) input.now.tokens.now.items)) }
{
    match read_file(alloc, input) {
        Ok(written) => Ok(written),
        Err(denied) => Err(nameless(denied)),
    }
}

// The same, naming nobody.
fn nameless(denied: Denied) -> Denied
    ensures { result ≡ nameless denied }
{
    match denied {
        Denied::Refused(refusal) => Denied::Refused(Refusal {
            rule: refusal.rule,
            place: refusal.place,
            who: None,
        }),
        Denied::Memory => Denied::Memory,
    }
}

// "endpoints" "1" ";" units
fn read_file(alloc: Global, input: &Input) -> Result<Written, Denied>
    ensures reads { IfOk result (λ w. Reads rules endpoints (from input.now 0) (tt, (tt, units_written input.now w)) []) }
    ensures known { IfOk result (IsWrittenThere input.now) }
    ensures halts { IfErr result (Halts rules endpoints (from input.now 0)) }
{
    let at = input.take_word(0, b"endpoints")?;
    let at = input.take_number(at, 1)?;
    let at = input.take_mark(at, Mark::Semicolon)?;
    read_units(alloc, input, at)
}

// { channel | procedure | service | process }, and then the end of the file
fn read_units(alloc: Global, input: &Input, at: usize) -> Result<Written, Denied>
    ensures reads { IfOk result (λ w. Tells rules (units_of 64) (units_from 64) (from input.now at) (units_written input.now w) []) }
    ensures known { IfOk result (IsWrittenThere input.now) }
    ensures halts { IfErr result (Halts rules (units_of 64) (from input.now at)) }
{
    let mut parts = Parts::new(alloc);
    let mut at = at;
    'units: while let Some(begun) = unit_word(input, at) {
        let (word, after) = begun;
        at = read_unit(alloc, input, after, word, &mut parts)?;
    }
    input.take_end(at)?;
    Ok(Written {
        lines: parts.lines,
        channels: parts.channels,
        procedures: parts.procedures,
        services: parts.services,
        processes: parts.processes,
    })
}
