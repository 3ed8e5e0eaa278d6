//! The first unguarded call of a body.

ghost use Rattle.std.specs.Prelude.{◌≡◌, IfOk, option_copied, slice_get};
ghost use Rattle.chor_tree.specs.Source.{body_of};
ghost use Rattle.chor_base.specs.Faults.{IsFirst};
ghost use Rattle.guard_check.specs.InBodies.{IsUnguardedIn};

use crate::nodes::passes;
use crate::unnamed::unnamed_after;
use chor_base::{Fault, List, Memory, NameId, Rule, earlier};
use chor_tree::{File, Following, Node, NodeId, what_follows};
use std::alloc::Global;

// The first call from a node on that passes one of these processes where nothing before it names
// that.
pub fn first_in_body(
    alloc: Global,
    file: &File,
    processes: List<NameId>,
    id: NodeId,
) -> Result<Option<Fault>, Memory>
    ensures { IfOk result (IsFirst (IsUnguardedIn processes (body_of file.now id))) }
{
    let mut unnamed = processes;
    let mut at = id;
    while let Some(node) = node_at(file, at) {
        if passes(&node.form, unnamed.as_slice()) {
            return Ok(Some(Fault {
                rule: Rule::U1,
                place: node.place,
            }));
        }
        unnamed = unnamed_after(alloc, unnamed.as_slice(), &node.form)?;
        match what_follows(&node.form) {
            Following::Nothing => return Ok(None),
            Following::One(next) => at = next,
            Following::Either(one, other) => {
                let same = unnamed.copy(alloc)?;
                let here = first_in_body(alloc, file, same, one)?;
                let there = first_in_body(alloc, file, unnamed, other)?;
                return Ok(earlier(here, there));
            }
        }
    }
    Ok(None)
}

fn node_at(file: &File, id: NodeId) -> Option<&Node>
    ensures { option_copied result ≡ slice_get file.now.tree.nodes id.0 }
{
    file.tree.nodes.as_slice().get(id.0 as usize)
}
