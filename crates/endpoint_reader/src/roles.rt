//! Roles of channels.

ghost use Rattle.std.specs.Prelude.{IfOk, IfErr};
ghost use Rattle.grammar.specs.Readers.{Halts, Tells};
ghost use Rattle.endpoint_grammar.specs.Grammar.{roles_of, served_of};
ghost use Rattle.endpoint_grammar.specs.Values.{rules, role_list, role_lists};
ghost use Rattle.endpoint_reader.specs.Tokens.{from, all_named};
ghost use Rattle.endpoint_reader.specs.Known.{AreThere, AreRolesThere};
ghost use Rattle.endpoint_reader.specs.Signatures.{roles_written, serving, serve_list};

use crate::input::{Input, Named};
use chor_base::{Denied, List};
use chor_lexer::Mark;
use std::alloc::Global;

/// The active roles of a channel, and its service roles.
#[derive(Drop)]
pub struct Roles {
    pub active: List<Named>,
    pub serve: List<Named>,
}

/// names [ "|" names ] ")", where so many may come in both lists together
pub fn read_roles(
    alloc: Global,
    input: &Input,
    at: usize,
    room: usize,
) -> Result<(Roles, usize), Denied>
    ensures reads { IfOk result (λ x. Tells rules (roles_of room) (role_lists room) (from input.now at) (roles_written input.now x.0) (from input.now x.1)) }
    ensures known { IfOk result (λ x. AreRolesThere input.now x.0) }
    ensures halts { IfErr result (Halts rules (roles_of room) (from input.now at)) }
{
    let mut active = List::new(alloc);
    let mut at = at;
    let mut left = room;
    'roles: loop {
        let (name, after) = input.take_item(at, left)?;
        active.push(name)?;
        let Some(more) = input.after_mark(after, Mark::Comma) else {
            let (serve, end) = read_serving(alloc, input, after, left.saturating_sub(1))?;
            return Ok((Roles { active, serve }, end));
        };
        at = more;
        left = left.saturating_sub(1);
    }
}

// [ "|" names ] ")", where so many may come
fn read_serving(
    alloc: Global,
    input: &Input,
    at: usize,
    room: usize,
) -> Result<(List<Named>, usize), Denied>
    ensures reads { IfOk result (λ x. Tells rules (serving room) (serve_list room) (from input.now at) (all_named input.now x.0) (from input.now x.1)) }
    ensures known { IfOk result (λ x. AreThere input.now x.0) }
    ensures halts { IfErr result (Halts rules (serving room) (from input.now at)) }
{
    let Some(after) = input.after_mark(at, Mark::Bar) else {
        let end = input.take_mark(at, Mark::CloseParen)?;
        return Ok((List::new(alloc), end));
    };
    let (serve, end) = read_served(alloc, input, after, room)?;
    Ok((serve, end))
}

// names ")", where so many may come
fn read_served(
    alloc: Global,
    input: &Input,
    at: usize,
    room: usize,
) -> Result<(List<Named>, usize), Denied>
    ensures reads { IfOk result (λ x. Tells rules (served_of room) (role_list room) (from input.now at) (all_named input.now x.0) (from input.now x.1)) }
    ensures known { IfOk result (λ x. AreThere input.now x.0) }
    ensures halts { IfErr result (Halts rules (served_of room) (from input.now at)) }
{
    let mut serve = List::new(alloc);
    let mut at = at;
    let mut left = room;
    'roles: loop {
        let (name, after) = input.take_item(at, left)?;
        serve.push(name)?;
        let Some(more) = input.after_mark(after, Mark::Comma) else {
            let end = input.take_mark(after, Mark::CloseParen)?;
            return Ok((serve, end));
        };
        at = more;
        left = left.saturating_sub(1);
    }
}
