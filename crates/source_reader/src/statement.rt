//! Statements.

ghost use Rattle.std.specs.Prelude.{◌≡◌, IfOk, IfErr};
ghost use Rattle.source_grammar.specs.Symbols.{Nothing, Halts};
ghost use Rattle.source_grammar.specs.Expressions.{Operator};
ghost use Rattle.source_grammar.specs.Statements.{NewRolesPart, RoleMore, StatementPart, StatementMore, StartTail, SendingTail, PathTail, ValueTail, LabelTail, GiveTail, SettingTail, HostTail};
ghost use Rattle.chor_base.specs.Expr.{Term};
ghost use Rattle.chor_tree.specs.Source.{Sends};
ghost use Rattle.chor_tree.specs.declared.tree.Part.{Part as Role};
ghost use Rattle.source_reader.specs.Reading.{names_of, tokens_from, form_of, statement_of, ReadsTo, ReceiverTail};

use crate::expression::read_expression;
use crate::input::Input;
use crate::lists::{read_part, read_parts};
use chor_base::{Denied, Expr, List, NameId};
use chor_lexer::Mark;
use chor_tree::{Form, Named, NodeId, Part};
use std::alloc::Global;

// A statement without what follows it.
#[derive(Drop)]
pub enum Statement {
    Start {
        channel: Named,
        session: Named,
        active: List<Part>,
        serve: List<Part>,
    },
    Value {
        from: Part,
        expr: Expr,
        to: Part,
        var: NameId,
        session: Named,
    },
    Label {
        from: Part,
        to: Part,
        session: Named,
        label: NameId,
    },
    Give {
        from: Part,
        to: Part,
        session: Named,
        given: Part,
    },
    Set {
        process: Named,
        var: NameId,
        expr: Expr,
    },
    Host {
        process: Named,
        var: NameId,
        name: Named,
        left: Expr,
        right: Expr,
    },
    Show {
        process: Named,
        expr: Expr,
    },
}

// The form of a statement that is followed by a node.
pub fn form_of(statement: Statement, next: NodeId) -> Form
    ensures { result ≡ form_of statement next }
{
    match statement {
        Statement::Start {
            channel,
            session,
            active,
            serve,
        } => Form::Start {
            channel,
            session,
            active,
            serve,
            next,
        },
        Statement::Value {
            from,
            expr,
            to,
            var,
            session,
        } => Form::Value {
            from,
            expr,
            to,
            var,
            session,
            next,
        },
        Statement::Label {
            from,
            to,
            session,
            label,
        } => Form::Label {
            from,
            to,
            session,
            label,
            next,
        },
        Statement::Give {
            from,
            to,
            session,
            given,
        } => Form::Give {
            from,
            to,
            session,
            given,
            next,
        },
        Statement::Set { process, var, expr } => Form::Set {
            process,
            var,
            expr,
            next,
        },
        Statement::Host {
            process,
            var,
            name,
            left,
            right,
        } => Form::Host {
            process,
            var,
            name,
            left,
            right,
            next,
        },
        Statement::Show { process, expr } => Form::Show {
            process,
            expr,
            next,
        },
    }
}

// stmt
pub fn read_statement(alloc: Global, input: &Input, at: usize) -> Result<(Statement, usize), Denied>
    ensures reads { IfOk result (λ x. ReadsTo StatementPart StatementMore input.now at (statement_of x.0) x.1) }
    ensures halts { IfErr result (Halts StatementPart StatementMore (names_of input.now) (tokens_from input.now at)) }
{
    if let Some(at) = input.after_word(at, b"start") {
        return read_start(alloc, input, at);
    }
    let (process, at) = input.take_name(at)?;
    if let Some(at) = input.after_mark(at, Mark::OpenBracket) {
        return read_sending(alloc, process, input, at);
    }
    if let Some(at) = input.after_mark(at, Mark::Dot) {
        return read_setting(alloc, process, input, at);
    }
    let at = input.take_word(at, b"show")?;
    let (expr, at) = read_expression(alloc, input, at)?;
    Ok((Statement::Show { process, expr }, at))
}

// "start" NAME "(" NAME ")" ":" part { "," part } [ "new" part { "," part } ], after its keyword
fn read_start(alloc: Global, input: &Input, at: usize) -> Result<(Statement, usize), Denied>
    ensures reads { IfOk result (λ x. ReadsTo StartTail RoleMore input.now at (statement_of x.0) x.1) }
    ensures halts { IfErr result (Halts StartTail RoleMore (names_of input.now) (tokens_from input.now at)) }
{
    let (channel, at) = input.take_name(at)?;
    let at = input.take_mark(at, Mark::OpenParen)?;
    let (session, at) = input.take_name(at)?;
    let at = input.take_mark(at, Mark::CloseParen)?;
    let at = input.take_mark(at, Mark::Colon)?;
    let (active, at) = read_parts(alloc, input, at)?;
    let (serve, at) = read_new_parts(alloc, input, at)?;
    let start = Statement::Start {
        channel,
        session,
        active,
        serve,
    };
    Ok((start, at))
}

// [ "new" part { "," part } ]
fn read_new_parts(alloc: Global, input: &Input, at: usize) -> Result<(List<Part>, usize), Denied>
    ensures reads { IfOk result (λ x. ReadsTo NewRolesPart RoleMore input.now at x.0 x.1) }
    ensures halts { IfErr result (Halts NewRolesPart RoleMore (names_of input.now) (tokens_from input.now at)) }
{
    match input.after_word(at, b"new") {
        Some(at) => read_parts(alloc, input, at),
        None => Ok((List::new(alloc), at)),
    }
}

// A communication, after its first name and bracket.
fn read_sending(
    alloc: Global,
    process: Named,
    input: &Input,
    at: usize,
) -> Result<(Statement, usize), Denied>
    ensures reads { IfOk result (λ x. ReadsTo (SendingTail process) Nothing input.now at (statement_of x.0) x.1) }
    ensures halts { IfErr result (Halts (SendingTail process) Nothing (names_of input.now) (tokens_from input.now at)) }
{
    let (role, at) = input.take_name(at)?;
    let at = input.take_mark(at, Mark::CloseBracket)?;
    let from = Part { process, role };
    if let Some(at) = input.after_mark(at, Mark::Dot) {
        return read_value(alloc, from, input, at);
    }
    let at = input.take_mark(at, Mark::Arrow)?;
    read_path(from, input, at)
}

// A label or an endpoint that is sent, after the arrow.
fn read_path(from: Part, input: &Input, at: usize) -> Result<(Statement, usize), Denied>
    ensures reads { IfOk result (λ x. ReadsTo (PathTail from) Nothing input.now at (statement_of x.0) x.1) }
    ensures halts { IfErr result (Halts (PathTail from) Nothing (names_of input.now) (tokens_from input.now at)) }
{
    let (to, at) = read_part(input, at)?;
    let at = input.take_mark(at, Mark::Colon)?;
    let (session, at) = input.take_name(at)?;
    if let Some(at) = input.after_mark(at, Mark::Dot) {
        return read_label(from, to, session, input, at);
    }
    read_give(from, to, session, input, at)
}

// part "." expr "->" part "." NAME ":" NAME, after the first dot
fn read_value(
    alloc: Global,
    from: Part,
    input: &Input,
    at: usize,
) -> Result<(Statement, usize), Denied>
    ensures reads { IfOk result (λ x. ReadsTo (ValueTail from) Nothing input.now at (statement_of x.0) x.1) }
    ensures halts { IfErr result (Halts (ValueTail from) Nothing (names_of input.now) (tokens_from input.now at)) }
{
    let (expr, at) = read_expression(alloc, input, at)?;
    let (receiver, at) = read_receiver(input, at)?;
    let value = Statement::Value {
        from,
        expr,
        to: receiver.part,
        var: receiver.var,
        session: receiver.session,
    };
    Ok((value, at))
}

// Who gets a value, in which variable and over which session.
#[derive(Clone, Copy)]
struct Receiver {
    part: Part,
    var: NameId,
    session: Named,
}

// "->" part "." NAME ":" NAME, whatever value comes before it and whoever sends it
fn read_receiver(input: &Input, at: usize) -> Result<(Receiver, usize), Denied>
    ensures reads { IfOk result (λ x. (a : Role) (e : Term) → ReadsTo (ReceiverTail a e) Nothing input.now at (Sends a e x.0.part x.0.var x.0.session) x.1) }
    ensures halts { IfErr result (λ d. (a : Role) (e : Term) → Halts (ReceiverTail a e) Nothing (names_of input.now) (tokens_from input.now at) d) }
{
    let at = input.take_mark(at, Mark::Arrow)?;
    let (part, at) = read_part(input, at)?;
    let at = input.take_mark(at, Mark::Dot)?;
    let (var, at) = input.take_name(at)?;
    let at = input.take_mark(at, Mark::Colon)?;
    let (session, at) = input.take_name(at)?;
    let receiver = Receiver {
        part,
        var: var.name,
        session,
    };
    Ok((receiver, at))
}

// part "->" part ":" NAME "." NAME, after the dot
fn read_label(
    from: Part,
    to: Part,
    session: Named,
    input: &Input,
    at: usize,
) -> Result<(Statement, usize), Denied>
    ensures reads { IfOk result (λ x. ReadsTo (LabelTail from to session) Nothing input.now at (statement_of x.0) x.1) }
    ensures halts { IfErr result (Halts (LabelTail from to session) Nothing (names_of input.now) (tokens_from input.now at)) }
{
    let (label, at) = input.take_name(at)?;
    let statement = Statement::Label {
        from,
        to,
        session,
        label: label.name,
    };
    Ok((statement, at))
}

// part "->" part ":" NAME "(" part ")", from the parenthesis on
fn read_give(
    from: Part,
    to: Part,
    session: Named,
    input: &Input,
    at: usize,
) -> Result<(Statement, usize), Denied>
    ensures reads { IfOk result (λ x. ReadsTo (GiveTail from to session) Nothing input.now at (statement_of x.0) x.1) }
    ensures halts { IfErr result (Halts (GiveTail from to session) Nothing (names_of input.now) (tokens_from input.now at)) }
{
    let at = input.take_mark(at, Mark::OpenParen)?;
    let (given, at) = read_part(input, at)?;
    let at = input.take_mark(at, Mark::CloseParen)?;
    let give = Statement::Give {
        from,
        to,
        session,
        given,
    };
    Ok((give, at))
}

// NAME "." NAME ":=" expr | NAME "." NAME ":=" "host" .., after the dot
fn read_setting(
    alloc: Global,
    process: Named,
    input: &Input,
    at: usize,
) -> Result<(Statement, usize), Denied>
    ensures reads { IfOk result (λ x. ReadsTo (SettingTail process) Operator input.now at (statement_of x.0) x.1) }
    ensures halts { IfErr result (Halts (SettingTail process) Operator (names_of input.now) (tokens_from input.now at)) }
{
    let (var, at) = input.take_name(at)?;
    let at = input.take_mark(at, Mark::Becomes)?;
    if let Some(at) = input.after_word(at, b"host") {
        return read_host(alloc, process, var, input, at);
    }
    let (expr, at) = read_expression(alloc, input, at)?;
    let set = Statement::Set {
        process,
        var: var.name,
        expr,
    };
    Ok((set, at))
}

// "host" NAME "(" expr "," expr ")", after its keyword
fn read_host(
    alloc: Global,
    process: Named,
    var: Named,
    input: &Input,
    at: usize,
) -> Result<(Statement, usize), Denied>
    ensures reads { IfOk result (λ x. ReadsTo (HostTail process var) Nothing input.now at (statement_of x.0) x.1) }
    ensures halts { IfErr result (Halts (HostTail process var) Nothing (names_of input.now) (tokens_from input.now at)) }
{
    let (name, at) = input.take_name(at)?;
    let at = input.take_mark(at, Mark::OpenParen)?;
    let (left, at) = read_expression(alloc, input, at)?;
    let at = input.take_mark(at, Mark::Comma)?;
    let (right, at) = read_expression(alloc, input, at)?;
    let at = input.take_mark(at, Mark::CloseParen)?;
    let host = Statement::Host {
        process,
        var: var.name,
        name,
        left,
        right,
    };
    Ok((host, at))
}
