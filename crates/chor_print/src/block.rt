//! The lines of blocks.

ghost use Rattle.std.specs.Prelude.{◌≡◌, ◌<◌, ◌+◌, ◌^◌, ◌++◌, All, OnOk, IfOk, None, length, codes};
ghost use Rattle.chor_tree.specs.Children.{children_of};
ghost use Rattle.chor_base.specs.Expr.{term_of};
ghost use Rattle.chor_print.specs.Statements.{if_text};
ghost use Rattle.chor_print.specs.Lines.{block_lines, blocks_of, lines_of_form};
ghost use Rattle.chor_print.specs.Text.{ended};
ghost use Rattle.chor_print.specs.Parts.{indentation, body_text, line_at, lines_at, next_of, statement_text};

use crate::statement::{next_of, put_call, put_if, put_statement};
use chor_base::{Expr, Memory, put_bytes};
use chor_tree::{File, Form, Named, NodeId};
use std::alloc::Global;

/// Appends the lines of a body, which stand within one pair of braces, and the line that closes it.
/// A body that isn't in the file is an end.
pub fn put_body(out: &mut Vec<u8>, alloc: Global, file: &File, body: NodeId) -> Result<(), Memory>
    ensures { OnOk result (out.new.items ≡ out.old.items ++ body_text (block_lines file.now body)) }
{
    put_any_block(out, alloc, file, body)?;
    put_line(out, 0, b"}")
}

fn put_any_block(out: &mut Vec<u8>, alloc: Global, file: &File, body: NodeId) -> Result<(), Memory>
    ensures { OnOk result (out.new.items ≡ out.old.items ++ lines_at 1 (block_lines file.now body)) }
{
    if (body.0 as usize) < file.tree.nodes.len() {
        put_block(out, alloc, file, 1, body)
    } else {
        put_line(out, 1, b"end")
    }
}

// Appends the lines of a block that stands within so many braces. Statements are printed without
// recursion.
fn put_block(
    out: &mut Vec<u8>,
    alloc: Global,
    file: &File,
    depth: u64,
    id: NodeId,
) -> Result<(), Memory>
    requires there { id.0 < length file.now.tree.nodes }
    requires deep { depth + id.0 < 2 ^ 33 }
    ensures { OnOk result (out.new.items ≡ out.old.items ++ lines_at depth (block_lines file.now id)) }
{
    match put_statements(out, alloc, file, depth, id)? {
        Form::If {
            process,
            expr,
            first,
            second,
        } => {
            put_if_line(out, alloc, file, depth, *process, expr)?;
            put_block(out, alloc, file, depth + 1, *first)?;
            put_line(out, depth, b"} else {")?;
            put_block(out, alloc, file, depth + 1, *second)?;
            put_line(out, depth, b"}")
        }
        Form::Call {
            name,
            processes,
            sessions,
        } => {
            put_indentation(out, depth)?;
            put_call(out, file, *name, processes, sessions)?;
            put_bytes(out, b"\n")
        }
        _ => put_line(out, depth, b"end"),
    }
}

// Appends the statements from a node on, and answers the node after them, which ends the block.
fn put_statements<'a>(
    out: &mut Vec<u8>,
    alloc: Global,
    file: &'a File,
    depth: u64,
    id: NodeId,
) -> Result<&'a Form, Memory>
    requires { id.0 < length file.now.tree.nodes }
    ensures text { IfOk result (λ last. out.new.items ++ lines_at depth (lines_of_form file.now (blocks_of file.now) last.now) ≡ out.old.items ++ lines_at depth (block_lines file.now id)) }
    ensures last { IfOk result (λ last. next_of last.now ≡ None) }
    ensures below { IfOk result (λ last. All (λ c. c.0 < id.0) (children_of last.now)) }
{
    let mut form = form_at(file, id);
    while let Some(next) = next_of(form) {
        put_indentation(out, depth)?;
        put_statement(out, alloc, file, form)?;
        put_bytes(out, b";\n")?;
        form = form_at(file, next);
    }
    Ok(form)
}

fn put_if_line(
    out: &mut Vec<u8>,
    alloc: Global,
    file: &File,
    depth: u64,
    process: Named,
    expr: &Expr,
) -> Result<(), Memory>
    ensures { OnOk result (out.new.items ≡ out.old.items ++ line_at depth (if_text file.now process (term_of expr.now))) }
{
    put_indentation(out, depth)?;
    put_if(out, alloc, file, process, expr)?;
    put_bytes(out, b"\n")
}

// The form of a node: the lines there are made of those of the nodes that follow it.
fn form_at(file: &File, id: NodeId) -> &Form
    requires { id.0 < length file.now.tree.nodes }
    ensures lines { block_lines file.now id ≡ lines_of_form file.now (blocks_of file.now) result.now }
    ensures below { All (λ c. c.0 < id.0) (children_of result.now) }
{
    &file.tree.nodes.at(id.0 as usize).form
}

// Appends a line within so many braces.
fn put_line(out: &mut Vec<u8>, depth: u64, line: &[u8]) -> Result<(), Memory>
    ensures { OnOk result (out.new.items ≡ out.old.items ++ line_at depth line.now) }
{
    put_indentation(out, depth)?;
    put_bytes(out, line)?;
    put_bytes(out, b"\n")
}

// Appends two spaces for each brace.
fn put_indentation(out: &mut Vec<u8>, depth: u64) -> Result<(), Memory>
    ensures { OnOk result (out.new.items ≡ out.old.items ++ indentation depth) }
{
    for _ in 0..depth {
        put_bytes(out, b"  ")?;
    }
    Ok(())
}
