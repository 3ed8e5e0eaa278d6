//! The text of statements, and of what conditionals and calls begin with.

ghost use Rattle.std.specs.Prelude.{◌≡◌, ◌++◌, OnOk, codes};
ghost use Rattle.chor_base.specs.Expr.{term_of};
ghost use Rattle.chor_base.specs.Writing.{name_in};
ghost use Rattle.chor_print.specs.Pieces.{named_text, part_text};
ghost use Rattle.chor_print.specs.Statements.{term_text, if_text, call_text};
ghost use Rattle.chor_print.specs.Parts.{statement_text, starting_text, message_text, action_text, receiver_text, between_text, asked_text, next_of};

use crate::piece::{Piece, put_after, put_list, put_list_after};
use chor_base::{Expr, List, Memory, NameId, put_bytes, put_name};
use chor_lexer::print_expr;
use chor_tree::{File, Form, Named, NodeId, Part};
use std::alloc::Global;

/// The node after a statement. A node that ends its block has none.
pub fn next_of(form: &Form) -> Option<NodeId>
    ensures { result ≡ next_of form.now }
{
    use Form::*;
    match form {
        Start { next, .. }
        | Value { next, .. }
        | Label { next, .. }
        | Give { next, .. }
        | Set { next, .. }
        | Host { next, .. }
        | Show { next, .. } => Some(*next),
        If { .. } | Call { .. } | End => None,
    }
}

/// Appends a statement. Of a node that ends its block it appends nothing.
pub fn put_statement(
    out: &mut Vec<u8>,
    alloc: Global,
    file: &File,
    form: &Form,
) -> Result<(), Memory>
    ensures { OnOk result (out.new.items ≡ out.old.items ++ statement_text file.now form.now) }
{
    use Form::*;
    match form {
        Start { .. } => put_start(out, file, form),
        Value { .. } | Label { .. } | Give { .. } => put_message(out, alloc, file, form),
        Set { .. } | Host { .. } | Show { .. } => put_action(out, alloc, file, form),
        If { .. } | Call { .. } | End => Ok(()),
    }
}

/// Appends `if p.e {`.
pub fn put_if(
    out: &mut Vec<u8>,
    alloc: Global,
    file: &File,
    process: Named,
    expr: &Expr,
) -> Result<(), Memory>
    ensures { OnOk result (out.new.items ≡ out.old.items ++ if_text file.now process (term_of expr.now)) }
{
    put_after(out, &file.names, b"if ", &process)?;
    put_bytes(out, b".")?;
    put_term(out, alloc, file, expr)?;
    put_bytes(out, b" {")
}

/// Appends a call with the processes and sessions that are passed.
pub fn put_call(
    out: &mut Vec<u8>,
    file: &File,
    name: Named,
    processes: &List<Named>,
    sessions: &List<Named>,
) -> Result<(), Memory>
    ensures { OnOk result (out.new.items ≡ out.old.items ++ call_text file.now name processes.now sessions.now) }
{
    put_after(out, &file.names, b"call ", &name)?;
    put_bytes(out, b"(")?;
    put_list(out, &file.names, processes.as_slice())?;
    put_list_after(out, &file.names, b"; ", sessions.as_slice())?;
    put_bytes(out, b")")
}

// Appends a start. Of another node it appends nothing.
fn put_start(out: &mut Vec<u8>, file: &File, form: &Form) -> Result<(), Memory>
    ensures { OnOk result (out.new.items ≡ out.old.items ++ starting_text file.now form.now) }
{
    let Form::Start {
        channel,
        session,
        active,
        serve,
        ..
    } = form
    else {
        return Ok(());
    };
    put_after(out, &file.names, b"start ", channel)?;
    put_after(out, &file.names, b"(", session)?;
    put_bytes(out, b"): ")?;
    put_list(out, &file.names, active.as_slice())?;
    put_list_after(out, &file.names, b" new ", serve.as_slice())
}

// Appends a value, a label or an endpoint that is sent. Of another node it appends nothing.
fn put_message(out: &mut Vec<u8>, alloc: Global, file: &File, form: &Form) -> Result<(), Memory>
    ensures { OnOk result (out.new.items ≡ out.old.items ++ message_text file.now form.now) }
{
    match form {
        Form::Value {
            from,
            expr,
            to,
            var,
            session,
            ..
        } => {
            put_sender(out, alloc, file, *from, expr)?;
            put_receiver(out, file, *to, *var, *session)
        }
        Form::Label {
            from,
            to,
            session,
            label,
            ..
        } => {
            put_between(out, file, *from, *to, *session)?;
            put_bytes(out, b".")?;
            put_name(out, &file.names, *label)
        }
        Form::Give {
            from,
            to,
            session,
            given,
            ..
        } => {
            put_between(out, file, *from, *to, *session)?;
            put_given(out, file, *given)
        }
        _ => Ok(()),
    }
}

// Appends what one process does by itself. Of another node it appends nothing.
fn put_action(out: &mut Vec<u8>, alloc: Global, file: &File, form: &Form) -> Result<(), Memory>
    ensures { OnOk result (out.new.items ≡ out.old.items ++ action_text file.now form.now) }
{
    match form {
        Form::Set {
            process,
            var,
            expr,
            ..
        } => {
            put_target(out, file, *process, *var)?;
            put_term(out, alloc, file, expr)
        }
        Form::Host {
            process,
            var,
            name,
            left,
            right,
            ..
        } => {
            put_target(out, file, *process, *var)?;
            put_host(out, alloc, file, *name, left, right)
        }
        Form::Show { process, expr, .. } => {
            process.put(out, &file.names)?;
            put_bytes(out, b" show ")?;
            put_term(out, alloc, file, expr)
        }
        _ => Ok(()),
    }
}

// Appends who sends which value, as `p[A].e -> `.
fn put_sender(
    out: &mut Vec<u8>,
    alloc: Global,
    file: &File,
    from: Part,
    expr: &Expr,
) -> Result<(), Memory>
    ensures { OnOk result (out.new.items ≡ out.old.items ++ (part_text file.now.names from ++ codes "." ++ term_text file.now (term_of expr.now) ++ codes " -> ")) }
{
    from.put(out, &file.names)?;
    put_bytes(out, b".")?;
    put_term(out, alloc, file, expr)?;
    put_bytes(out, b" -> ")
}

// Appends who receives a value in which variable and session, as `q[B].x : k`.
fn put_receiver(
    out: &mut Vec<u8>,
    file: &File,
    to: Part,
    var: NameId,
    session: Named,
) -> Result<(), Memory>
    ensures { OnOk result (out.new.items ≡ out.old.items ++ receiver_text file.now.names to var session) }
{
    to.put(out, &file.names)?;
    put_bytes(out, b".")?;
    put_name(out, &file.names, var)?;
    put_after(out, &file.names, b" : ", &session)
}

// Appends sender, receiver and session, as `p[A] -> q[B] : k`.
fn put_between(
    out: &mut Vec<u8>,
    file: &File,
    from: Part,
    to: Part,
    session: Named,
) -> Result<(), Memory>
    ensures { OnOk result (out.new.items ≡ out.old.items ++ between_text file.now.names from to session) }
{
    from.put(out, &file.names)?;
    put_after(out, &file.names, b" -> ", &to)?;
    put_after(out, &file.names, b" : ", &session)
}

// Appends the session and the role that are handed over, as `(h[R])`.
fn put_given(out: &mut Vec<u8>, file: &File, given: Part) -> Result<(), Memory>
    ensures { OnOk result (out.new.items ≡ out.old.items ++ (codes "(" ++ part_text file.now.names given ++ codes ")")) }
{
    put_after(out, &file.names, b"(", &given)?;
    put_bytes(out, b")")
}

// Appends the variable that is set, as `p.x := `.
fn put_target(out: &mut Vec<u8>, file: &File, process: Named, var: NameId) -> Result<(), Memory>
    ensures { OnOk result (out.new.items ≡ out.old.items ++ (named_text file.now.names process ++ codes "." ++ name_in file.now.names var ++ codes " := ")) }
{
    process.put(out, &file.names)?;
    put_bytes(out, b".")?;
    put_name(out, &file.names, var)?;
    put_bytes(out, b" := ")
}

// Appends a host call, as `host f(e, e)`.
fn put_host(
    out: &mut Vec<u8>,
    alloc: Global,
    file: &File,
    name: Named,
    left: &Expr,
    right: &Expr,
) -> Result<(), Memory>
    ensures { OnOk result (out.new.items ≡ out.old.items ++ asked_text file.now name (term_of left.now) (term_of right.now)) }
{
    put_after(out, &file.names, b"host ", &name)?;
    put_bytes(out, b"(")?;
    put_term(out, alloc, file, left)?;
    put_bytes(out, b", ")?;
    put_term(out, alloc, file, right)?;
    put_bytes(out, b")")
}

fn put_term(out: &mut Vec<u8>, alloc: Global, file: &File, expr: &Expr) -> Result<(), Memory>
    ensures { OnOk result (out.new.items ≡ out.old.items ++ term_text file.now (term_of expr.now)) }
{
    print_expr(alloc, expr, &file.names, &file.texts, out)
}
