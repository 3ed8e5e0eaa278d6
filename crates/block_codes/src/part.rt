//! What a process does at a node of a source.

ghost use Rattle.std.specs.Prelude.{◌≡◌, true, IfOk};
ghost use Rattle.chor_base.specs.Expr.{term_of};
ghost use Rattle.chor_semantics.specs.Choreography.{OfValue, OfLabel, OfPart};
ghost use Rattle.chor_semantics.specs.Sources.{name_ref, parts_of};
ghost use Rattle.projection.specs.Codes.{part_in, role_in};
ghost use Rattle.projection.specs.Making.{is_message, is_own, part_at, DoesPart};
ghost use Rattle.block_codes.specs.Nodes.{over};

use chor_base::{Expr, List, Memory, NameId};
use chor_tree::{Form, Part};
use endpoint_code::{CodeId, CodeNode};
use std::alloc::Global;

// The parties of a message, and its session.
#[derive(Clone, Copy)]
struct Link {
    session: NameId,
    from: Part,
    to: Part,
}

impl Link {
    fn new(session: NameId, from: Part, to: Part) -> Self
        ensures { result ≡ record { session = session; from = from; to = to } }
    {
        Link { session, from, to }
    }
}

/// The node by which a process does its part at a node of this form, and goes on at `next`; none
/// where it has no part. Conditionals and calls give none.
pub fn part(
    alloc: Global,
    form: &Form,
    process: NameId,
    next: CodeId,
) -> Result<Option<CodeNode>, Memory>
    ensures { IfOk result (DoesPart next (part_at process form.now)) }
{
    match form {
        Form::Start {
            channel,
            session,
            active,
            ..
        } => match role_in(active.as_slice(), process) {
            Some(role) => Ok(Some(CodeNode::Join(channel.name, role, session.name, next))),
            None => Ok(None),
        },
        Form::Value { .. } => message_part(alloc, form, process, next),
        Form::Label { .. } => message_part(alloc, form, process, next),
        Form::Give { .. } => message_part(alloc, form, process, next),
        Form::Set { .. } => own_part(alloc, form, process, next),
        Form::Host { .. } => own_part(alloc, form, process, next),
        Form::Show { .. } => own_part(alloc, form, process, next),
        Form::If { .. } => Ok(None),
        Form::Call { .. } => Ok(None),
        Form::End => Ok(None),
    }
}

// Its part in a message, which only its sender and its receiver have.
fn message_part(
    alloc: Global,
    form: &Form,
    process: NameId,
    next: CodeId,
) -> Result<Option<CodeNode>, Memory>
    ensures { is_message form.now ≡ true → IfOk result (DoesPart next (part_at process form.now)) }
{
    match form {
        Form::Value {
            from,
            expr,
            to,
            var,
            session,
            ..
        } => {
            let link = Link::new(session.name, *from, *to);
            value(alloc, link, expr, *var, process, next)
        }
        Form::Label {
            from,
            to,
            session,
            label,
            ..
        } => {
            let link = Link::new(session.name, *from, *to);
            choice(alloc, link, *label, process, next)
        }
        Form::Give {
            from,
            to,
            session,
            given,
            ..
        } => {
            let link = Link::new(session.name, *from, *to);
            Ok(delegation(link, *given, process, next))
        }
        _ => Ok(None),
    }
}

// Its part in a statement, which only the process of the statement has.
fn own_part(
    alloc: Global,
    form: &Form,
    process: NameId,
    next: CodeId,
) -> Result<Option<CodeNode>, Memory>
    ensures { is_own form.now ≡ true → IfOk result (DoesPart next (part_at process form.now)) }
{
    match form {
        Form::Set {
            process: owner,
            var,
            expr,
            ..
        } => {
            if process != owner.name {
                return Ok(None);
            }
            Ok(Some(CodeNode::Set(*var, expr.copy(alloc)?, next)))
        }
        Form::Host {
            process: owner,
            var,
            name,
            left,
            right,
            ..
        } => {
            if process != owner.name {
                return Ok(None);
            }
            let left = left.copy(alloc)?;
            Ok(Some(CodeNode::Host(*var, name.name, left, right.copy(alloc)?, next)))
        }
        Form::Show {
            process: owner,
            expr,
            ..
        } => {
            if process != owner.name {
                return Ok(None);
            }
            Ok(Some(CodeNode::Show(expr.copy(alloc)?, next)))
        }
        _ => Ok(None),
    }
}

// The role in which a process takes part in a start.
fn role_in(parts: &[Part], process: NameId) -> Option<NameId>
    ensures { result ≡ role_in process (parts_of parts.now) }
{
    for part in parts {
        if process == part.process.name {
            return Some(part.role.name);
        }
    }
    None
}

// The sender sends the value of an expression, and the receiver gets it into a variable.
fn value(
    alloc: Global,
    link: Link,
    expr: &Expr,
    var: NameId,
    process: NameId,
    next: CodeId,
) -> Result<Option<CodeNode>, Memory>
    ensures { IfOk result (DoesPart next (part_in process (over link (OfValue (term_of expr.now) var)))) }
{
    if process == link.from.process.name {
        let sent = expr.copy(alloc)?;
        Ok(Some(CodeNode::Send(link.session, link.to.role.name, sent, next)))
    } else if process == link.to.process.name {
        Ok(Some(CodeNode::Recv(link.session, link.from.role.name, var, next)))
    } else {
        Ok(None)
    }
}

// The sender selects a label, and the receiver offers that label alone.
fn choice(
    alloc: Global,
    link: Link,
    label: NameId,
    process: NameId,
    next: CodeId,
) -> Result<Option<CodeNode>, Memory>
    ensures { IfOk result (DoesPart next (part_in process (over link (OfLabel label)))) }
{
    if process == link.from.process.name {
        Ok(Some(CodeNode::Pick(link.session, link.to.role.name, label, next)))
    } else if process == link.to.process.name {
        let mut arms = List::new(alloc);
        arms.push((label, next))?;
        Ok(Some(CodeNode::Branch(link.session, link.from.role.name, arms)))
    } else {
        Ok(None)
    }
}

// The sender gives its endpoint of another session away, and the receiver takes it over.
fn delegation(link: Link, given: Part, process: NameId, next: CodeId) -> Option<CodeNode>
    ensures { DoesPart next (part_in process (over link (OfPart (name_ref given.process) given.role.name))) result }
{
    if process == link.from.process.name {
        Some(CodeNode::Throw(link.session, link.to.role.name, given.process.name, next))
    } else if process == link.to.process.name {
        Some(CodeNode::Catch(link.session, link.from.role.name, given.process.name, next))
    } else {
        None
    }
}
