//! Lists of names and of parts.

ghost use Rattle.std.specs.Prelude.{IfOk, IfErr};
ghost use Rattle.source_grammar.specs.Symbols.{Nothing, Halts};
ghost use Rattle.source_grammar.specs.Grammar.{PartIs};
ghost use Rattle.source_grammar.specs.Parts.{OrComma, OrName, AnyListPart, NamesPart, AnyNamesPart, PartPart};
ghost use Rattle.source_reader.specs.Reading.{names_of, tokens_from, ReadsTo};

use crate::input::Input;
use chor_base::{Denied, List};
use chor_lexer::Mark;
use chor_tree::{Named, Part};
use std::alloc::Global;

// names = NAME { "," NAME }
pub fn read_names(
    alloc: Global,
    input: &Input,
    at: usize,
    limit: usize,
) -> Result<(List<Named>, usize), Denied>
    ensures reads { IfOk result (λ x. ReadsTo (NamesPart limit) (OrComma Nothing) input.now at x.0 x.1) }
    ensures halts { IfErr result (Halts (NamesPart limit) (OrComma Nothing) (names_of input.now) (tokens_from input.now at)) }
{
    input.room_for_name(at, 0, limit)?;
    let (first, mut at) = input.take_name(at)?;
    let mut names = List::new(alloc);
    names.push(first)?;
    while let Some(after) = input.after_mark(at, Mark::Comma) {
        input.room_for_name(after, names.len(), limit)?;
        let (name, more) = input.take_name(after)?;
        names.push(name)?;
        at = more;
    }
    Ok((names, at))
}

/// Names with commas between them, as many as the limit allows, or none: `[ names ]`.
pub fn read_any_names(
    alloc: Global,
    input: &Input,
    at: usize,
    limit: usize,
) -> Result<(List<Named>, usize), Denied>
    ensures reads { IfOk result (λ x. ReadsTo (AnyNamesPart limit) OrName input.now at x.0 x.1) }
    ensures halts { IfErr result (Halts (AnyNamesPart limit) OrName (names_of input.now) (tokens_from input.now at)) }
{
    if input.has_name(at) {
        read_names(alloc, input, at, limit)
    } else {
        Ok((List::new(alloc), at))
    }
}

// part = NAME "[" NAME "]"
pub fn read_part(input: &Input, at: usize) -> Result<(Part, usize), Denied>
    ensures reads { IfOk result (λ x. ReadsTo PartPart Nothing input.now at x.0 x.1) }
    ensures halts { IfErr result (Halts PartPart Nothing (names_of input.now) (tokens_from input.now at)) }
{
    let (process, at) = input.take_name(at)?;
    let at = input.take_mark(at, Mark::OpenBracket)?;
    let (role, at) = input.take_name(at)?;
    let at = input.take_mark(at, Mark::CloseBracket)?;
    Ok((Part { process, role }, at))
}

// part { "," part }
pub fn read_parts(alloc: Global, input: &Input, at: usize) -> Result<(List<Part>, usize), Denied>
    ensures reads { IfOk result (λ x. ReadsTo (AnyListPart PartIs) (OrComma Nothing) input.now at x.0 x.1) }
    ensures halts { IfErr result (Halts (AnyListPart PartIs) (OrComma Nothing) (names_of input.now) (tokens_from input.now at)) }
{
    let (first, mut at) = read_part(input, at)?;
    let mut parts = List::new(alloc);
    parts.push(first)?;
    while let Some(after) = input.after_mark(at, Mark::Comma) {
        let (part, more) = read_part(input, after)?;
        parts.push(part)?;
        at = more;
    }
    Ok((parts, at))
}
