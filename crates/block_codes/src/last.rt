//! What processes do at the last node of a block.

ghost use Rattle.std.specs.Prelude.{◌≡◌, ◌<◌, true, IfOk, length};
ghost use Rattle.endpoint_code.specs.Trees.{Ends, code_at};
ghost use Rattle.endpoint_code.specs.declared.code.CodeNode.TheVariants.{End};
ghost use Rattle.block_codes.specs.Parts.{IsEndAt, first_id, IsCallAt, AreCalled};

use crate::call::{Tail, called};
use crate::coded::Coded;
use crate::node::Spot;
use chor_base::{List, Memory, NameId};
use endpoint_code::{Code, CodeId, CodeNode};
use std::alloc::Global;

/// The codes of processes at the last node of a block: those that a call passes go on as it says,
/// and all others end.
pub fn last_codes(
    alloc: Global,
    spot: &Spot<'_>,
    scope: &[NameId],
    code: &mut Code,
) -> Result<List<Coded>, Memory>
    ensures { IfOk result (AreCalled spot.now.file.now.procs spot.now.node.now.form code.old.nodes code.new.nodes scope.now) }
{
    let end = put_end(code)?;
    let tail = Tail {
        spot: *spot,
        called: called(spot.file.procs.as_slice(), &spot.node.form),
    };
    let mut codes = List::new(alloc);
    for process in scope {
        let id = put_call(alloc, &tail, *process, end, code)?;
        codes.push(Coded {
            process: *process,
            code: id,
        })?;
    }
    Ok(codes)
}

/// The code of one process at the last node of a block.
pub fn last_code(
    alloc: Global,
    spot: &Spot<'_>,
    process: NameId,
    code: &mut Code,
) -> Result<CodeId, Memory>
    ensures { IfOk result (IsCallAt spot.now.file.now.procs spot.now.node.now.form code.old.nodes code.new.nodes process) }
{
    let end = put_end(code)?;
    let tail = Tail {
        spot: *spot,
        called: called(spot.file.procs.as_slice(), &spot.node.form),
    };
    put_call(alloc, &tail, process, end, code)
}

// Adds the call of a process, if it is passed; else it goes on at the end.
fn put_call(
    alloc: Global,
    tail: &Tail<'_>,
    process: NameId,
    end: CodeId,
    code: &mut Code,
) -> Result<CodeId, Memory>
    requires inside { end.0 < length code.old.nodes }
    requires ends { code_at code.old.nodes end ≡ Ends }
    ensures { IfOk result (IsCallAt tail.now.spot.file.now.procs tail.now.spot.node.now.form code.old.nodes code.new.nodes process) }
{
    match tail.call_node(alloc, process)? {
        None => Ok(end),
        Some(node) => code.push(node),
    }
}

// An end: the table's first node where that is one, so that all blocks share it, and else one more.
fn put_end(code: &mut Code) -> Result<CodeId, Memory>
    ensures { IfOk result (IsEndAt code.old.nodes code.new.nodes) }
{
    if begins_with_end(code) {
        Ok(CodeId(0))
    } else {
        code.push(CodeNode::End)
    }
}

// Whether the table's first node is an end.
fn begins_with_end(code: &Code) -> bool
    ensures { result ≡ true → IsEndAt code.now.nodes code.now.nodes first_id }
{
    !code.nodes.is_empty() && is_end(code.node_at(CodeId(0)))
}

fn is_end(node: &CodeNode) -> bool
    ensures { result ≡ true → node.now ≡ End }
{
    matches!(node, CodeNode::End)
}
