//! Headers.

ghost use Rattle.std.specs.Prelude.{codes, IfOk, IfErr};
ghost use Rattle.source_grammar.specs.Symbols.{Nothing, Halts};
ghost use Rattle.source_grammar.specs.Parts.{AWord};
ghost use Rattle.source_grammar.specs.Files.{CapacityNumber, CapacityPart, HeaderPart, HeaderMore};
ghost use Rattle.source_reader.specs.Reading.{names_of, tokens_from, ReadsTo};

use crate::input::Input;
use crate::limits::CAPACITY;
use chor_base::{Denied, Place, Rule};
use chor_lexer::Mark;
use chor_tree::Header;

/// A header, where one begins: `[ "chor" "2" ";" [ "capacity" NUMBER ";" ] ]`.
pub fn read_header(input: &Input, at: usize) -> Result<(Header, usize), Denied>
    ensures reads { IfOk result (λ x. ReadsTo HeaderPart HeaderMore input.now at x.0 x.1) }
    ensures halts { IfErr result (Halts HeaderPart HeaderMore (names_of input.now) (tokens_from input.now at)) }
{
    let Some(at) = input.after_word(at, b"chor") else {
        return Ok((Header::none(), at));
    };
    let at = input.take_number(at, 2)?;
    let at = input.take_mark(at, Mark::Semicolon)?;
    let (declared, at) = read_capacity(input, at)?;
    let (capacity, place) = declared;
    let header = Header {
        version: 2,
        capacity,
        place,
    };
    Ok((header, at))
}

// [ "capacity" NUMBER ";" ], and where the word stands
fn read_capacity(input: &Input, at: usize) -> Result<((Option<u32>, Place), usize), Denied>
    ensures reads { IfOk result (λ x. ReadsTo CapacityPart (AWord (codes "capacity")) input.now at x.0 x.1) }
    ensures halts { IfErr result (Halts CapacityPart (AWord (codes "capacity")) (names_of input.now) (tokens_from input.now at)) }
{
    let Some(after) = input.after_word(at, b"capacity") else {
        return Ok(((None, Place { line: 1, col: 1 }), at));
    };
    let place = input.place_of(at);
    let (capacity, after) = take_capacity(input, after)?;
    let after = input.take_mark(after, Mark::Semicolon)?;
    Ok(((Some(capacity), place), after))
}

// A number that may be a capacity.
fn take_capacity(input: &Input, at: usize) -> Result<(u32, usize), Denied>
    ensures reads { IfOk result (λ x. ReadsTo CapacityNumber Nothing input.now at x.0 x.1) }
    ensures halts { IfErr result (Halts CapacityNumber Nothing (names_of input.now) (tokens_from input.now at)) }
{
    let Some((number, after)) = input.number_at(at) else {
        return Err(input.refused(Rule::P1, at));
    };
    if number < 1 || number > CAPACITY {
        return Err(input.refused(Rule::P3, at));
    }
    Ok((number as u32, after))
}
