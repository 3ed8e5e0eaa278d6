//! The types of bodies.

ghost use Rattle.std.specs.Prelude.{◌≡◌, ◌<◌, None, Some, IfOk, length, slice_get};
ghost use Rattle.chor_base.specs.Faults.{IsFirst};
ghost use Rattle.chor_tree.specs.Forms.{head_of};
ghost use Rattle.chor_tree.specs.Source.{body_of};
ghost use Rattle.typing_rules.specs.Checks.{rule_at};
ghost use Rattle.typing_rules.specs.After.{after};
ghost use Rattle.typing_rules.specs.TypeFaults.{IsBodyFault};
ghost use Rattle.typing_steps.specs.Known.{environment_of, IsFresh};
ghost use Rattle.type_check.specs.NodeFaults.{fault_in};
ghost use Rattle.type_check.specs.Resolved.{IsResolved};

use chor_base::{Fault, Memory, earlier};
use chor_tree::{File, Following, Node, NodeId, Tree, what_follows};
use delegation::OwnFault;
use std::alloc::Global;
use typing_steps::Known;

// The first fault of the types of a body that begins at a node, where this much is known. What
// follows a fault on its path isn't judged.
pub fn first_in_body(
    alloc: Global,
    file: &File,
    known: Known,
    id: NodeId,
) -> Result<Option<Fault>, Memory>
    requires { IsResolved file.now (environment_of known) id }
    ensures { IfOk result (IsFirst (λ x. IsBodyFault file.now x (environment_of known) (body_of file.now id))) }
{
    let mut known = known;
    let mut first = None;
    let mut at = id;
    'body: loop {
        let node = node_at(&file.tree, at);
        let found = judge(alloc, file, &mut known, node)?;
        if found.is_some() {
            return Ok(earlier(first, found));
        }
        match what_follows(&node.form) {
            Following::Nothing => return Ok(first),
            Following::One(next) => at = next,
            Following::Either(one, other) => {
                let copy = known.copy(alloc)?;
                let here = first_in_body(alloc, file, copy, one)?;
                first = earlier(first, here);
                at = other;
            }
        }
    }
}

// The fault of a node, if it has one; else what is known afterwards is known.
fn judge(
    alloc: Global,
    file: &File,
    known: &mut Known,
    node: &Node,
) -> Result<Option<Fault>, Memory>
    requires { IsFresh (environment_of known.old) node.now.form }
    ensures fault { IfOk result (λ o. o ≡ fault_in node.now.place (rule_at file.now (environment_of known.old) (head_of node.now.form))) }
    ensures known { IfOk result (λ o. o ≡ None → environment_of known.new ≡ after file.now (environment_of known.old) (head_of node.now.form)) }
{
    match known.pass(alloc, file, &node.form) {
        Ok(()) => Ok(None),
        Err(OwnFault::Rule(rule)) => Ok(Some(Fault {
            rule,
            place: node.place,
        })),
        Err(OwnFault::Memory) => Err(Memory),
    }
}

// The node of a number.
fn node_at(tree: &Tree, id: NodeId) -> &Node
    requires { id.0 < length tree.now.nodes }
    ensures { slice_get tree.now.nodes id.0 ≡ Some result.now }
{
    tree.nodes.at(id.0 as usize)
}
