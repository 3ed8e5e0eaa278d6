//! Units.

ghost use Rattle.std.specs.Prelude.{◌≤◌, length, IfOk, IfErr, OnOk};
ghost use Rattle.grammar.specs.Readers.{Halts};
ghost use Rattle.endpoint_grammar.specs.Values.{rules};
ghost use Rattle.endpoint_reader.specs.Tokens.{from};
ghost use Rattle.endpoint_units.specs.Words.{rest_of};
ghost use Rattle.endpoint_units.specs.Parts.{left, ArePartsInside, ArePartsThere, IsUnit};

use crate::parts::Parts;
use crate::word::UnitWord;
use chor_base::Denied;
use chor_lexer::Mark;
use endpoint_reader::{
    Channel, Input, Procedure, Process, Service, read_body, read_role_of_channel, read_roles,
    read_signature,
};
use std::alloc::Global;

/// How many roles a channel may have.
const ROLES: usize = 16;

/// How many nodes may stand on a path of a body.
const NODES: usize = 1024;

/// How many processes a file may have.
const PROCESSES: usize = 64;

/// A unit after its first word goes after those that were read; the place after it is answered.
pub fn read_unit(
    alloc: Global,
    input: &Input,
    at: usize,
    word: UnitWord,
    parts: &mut Parts,
) -> Result<usize, Denied>
    requires inside { ArePartsInside parts.old }
    requires known { ArePartsThere input.now parts.old }
    ensures goes { IfOk result (IsUnit input.now word at parts.old parts.new) }
    ensures inside { OnOk result (ArePartsInside parts.new) }
    ensures known { OnOk result (ArePartsThere input.now parts.new) }
    ensures further { IfOk result (λ end. length (from input.now end) ≤ length (from input.now at)) }
    ensures halts { IfErr result (Halts rules (rest_of word (left parts.old)) (from input.now at)) }
{
    match word {
        UnitWord::Channel => read_channel(alloc, input, at, parts),
        UnitWord::Procedure => read_procedure(alloc, input, at, parts),
        UnitWord::Service => read_service(alloc, input, at, parts),
        UnitWord::Process => read_process(alloc, input, at, parts),
    }
}

// NAME "(" names [ "|" names ] ")" ";"
fn read_channel(alloc: Global, input: &Input, at: usize, parts: &mut Parts) -> Result<usize, Denied>
    requires inside { ArePartsInside parts.old }
    requires known { ArePartsThere input.now parts.old }
    ensures goes { IfOk result (IsUnit input.now UnitWord.Channel at parts.old parts.new) }
    ensures inside { OnOk result (ArePartsInside parts.new) }
    ensures known { OnOk result (ArePartsThere input.now parts.new) }
    ensures further { IfOk result (λ end. length (from input.now end) ≤ length (from input.now at)) }
    ensures halts { IfErr result (Halts rules (rest_of UnitWord.Channel (left parts.old)) (from input.now at)) }
{
    let (name, at) = input.take_name(at)?;
    let at = input.take_mark(at, Mark::OpenParen)?;
    let (roles, at) = read_roles(alloc, input, at, ROLES)?;
    let at = input.take_mark(at, Mark::Semicolon)?;
    parts.channels.push(Channel { name, roles })?;
    Ok(at)
}

// NAME NAME "(" [ names ] ")" body
fn read_procedure(
    alloc: Global,
    input: &Input,
    at: usize,
    parts: &mut Parts,
) -> Result<usize, Denied>
    requires inside { ArePartsInside parts.old }
    requires known { ArePartsThere input.now parts.old }
    ensures goes { IfOk result (IsUnit input.now UnitWord.Procedure at parts.old parts.new) }
    ensures inside { OnOk result (ArePartsInside parts.new) }
    ensures known { OnOk result (ArePartsThere input.now parts.new) }
    ensures further { IfOk result (λ end. length (from input.now end) ≤ length (from input.now at)) }
    ensures halts { IfErr result (Halts rules (rest_of UnitWord.Procedure (left parts.old)) (from input.now at)) }
{
    let (signature, at) = read_signature(alloc, input, at)?;
    let (body, at) = read_body(alloc, input, at, NODES, &mut parts.lines)?;
    parts.procedures.push(Procedure { signature, body })?;
    Ok(at)
}

// NAME "[" NAME "]" body
fn read_service(alloc: Global, input: &Input, at: usize, parts: &mut Parts) -> Result<usize, Denied>
    requires inside { ArePartsInside parts.old }
    requires known { ArePartsThere input.now parts.old }
    ensures goes { IfOk result (IsUnit input.now UnitWord.Service at parts.old parts.new) }
    ensures inside { OnOk result (ArePartsInside parts.new) }
    ensures known { OnOk result (ArePartsThere input.now parts.new) }
    ensures further { IfOk result (λ end. length (from input.now end) ≤ length (from input.now at)) }
    ensures halts { IfErr result (Halts rules (rest_of UnitWord.Service (left parts.old)) (from input.now at)) }
{
    let (names, at) = read_role_of_channel(input, at)?;
    let (body, at) = read_body(alloc, input, at, NODES, &mut parts.lines)?;
    parts.services.push(Service {
        channel: names.first,
        role: names.second,
        body,
    })?;
    Ok(at)
}

// NAME body
fn read_process(alloc: Global, input: &Input, at: usize, parts: &mut Parts) -> Result<usize, Denied>
    requires inside { ArePartsInside parts.old }
    requires known { ArePartsThere input.now parts.old }
    ensures goes { IfOk result (IsUnit input.now UnitWord.Process at parts.old parts.new) }
    ensures inside { OnOk result (ArePartsInside parts.new) }
    ensures known { OnOk result (ArePartsThere input.now parts.new) }
    ensures further { IfOk result (λ end. length (from input.now end) ≤ length (from input.now at)) }
    ensures halts { IfErr result (Halts rules (rest_of UnitWord.Process (left parts.old)) (from input.now at)) }
{
    let room = PROCESSES.saturating_sub(parts.processes.len());
    let (name, at) = input.take_item(at, room)?;
    let (body, at) = read_body(alloc, input, at, NODES, &mut parts.lines)?;
    parts.processes.push(Process { name, body })?;
    Ok(at)
}
