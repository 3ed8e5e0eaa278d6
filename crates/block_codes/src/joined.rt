//! The codes of processes at a conditional.

ghost use Rattle.std.specs.Prelude.{◌≡◌, All, IfOk, IfErr, length, true};
ghost use Rattle.std.specs.List.{zip};
ghost use Rattle.block_codes.specs.Joins.{is_conditional, IsSound, IsJoinedAt, AreJoined, StopsOne, StopsFirst};

use crate::coded::Coded;
use crate::stop::Stop;
use branch_merge::{MergeFault, merge};
use chor_base::List;
use chor_tree::{Form, Node};
use endpoint_code::{Code, CodeId, CodeNode};
use std::alloc::Global;

/// Joins the codes of each process for the two branches of a conditional. The first process that
/// can't tell them apart is the answer.
pub fn join(
    alloc: Global,
    node: &Node,
    firsts: &[Coded],
    seconds: &[Coded],
    code: &mut Code,
) -> Result<List<Coded>, Stop>
    requires conditional { is_conditional node.now.form ≡ true }
    requires same { length firsts.now ≡ length seconds.now }
    requires firsts { All (IsSound code.old.nodes) firsts.now }
    requires seconds { All (IsSound code.old.nodes) seconds.now }
    ensures joined { IfOk result (AreJoined code.old.nodes code.new.nodes node.now.form firsts.now seconds.now) }
    ensures stopped { IfErr result (StopsFirst code.old.nodes node.now (zip firsts.now seconds.now)) }
{
    let mut codes = List::new(alloc);
    for place in 0..firsts.len() {
        let id = join_one(alloc, node, firsts[place], seconds[place], code)?;
        codes.push(Coded {
            process: firsts[place].process,
            code: id,
        })?;
    }
    Ok(codes)
}

/// Joins the codes of one process: the decider tests, and for another both are merged.
pub fn join_one(
    alloc: Global,
    node: &Node,
    first: Coded,
    second: Coded,
    code: &mut Code,
) -> Result<CodeId, Stop>
    requires conditional { is_conditional node.now.form ≡ true }
    requires first { IsSound code.old.nodes first }
    requires second { IsSound code.old.nodes second }
    ensures joined { IfOk result (IsJoinedAt code.old.nodes code.new.nodes node.now.form (first, second)) }
    ensures stopped { IfErr result (StopsOne code.old.nodes node.now (first, second)) }
{
    match &node.form {
        Form::If { process, expr, .. } => {
            if first.process == process.name {
                let test = CodeNode::If(expr.copy(alloc)?, first.code, second.code);
                return Ok(code.push(test)?);
            }
            match merge(alloc, code, first.code, second.code) {
                Ok(id) => Ok(id),
                Err(MergeFault::Clash) => Err(Stop::Clash(node.place, first.process)),
                Err(MergeFault::Memory) => Err(Stop::Memory),
            }
        }
        _ => unreachable!(),
    }
}
