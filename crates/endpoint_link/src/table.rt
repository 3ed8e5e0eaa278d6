//! A code table to which the nodes of another are added.

ghost use Rattle.std.specs.Prelude.{◌≡◌, OnOk, length};
ghost use Rattle.endpoint_link.specs.Renumbered.{AreNodesJoined};

use crate::node::renumbered_node;
use crate::renumbering::Renumbering;
use chor_base::Memory;
use endpoint_code::Code;
use std::alloc::Global;

/// Adds the nodes of `given` to `code`, renumbered. The nodes that `code` has stay as they are.
pub fn add_nodes(
    alloc: Global,
    code: &mut Code,
    given: &Code,
    numbers: &Renumbering,
) -> Result<(), Memory>
    requires { numbers.now.first ≡ length code.old.nodes }
    ensures { OnOk result (AreNodesJoined numbers.now given.now.nodes code.old.nodes code.new.nodes) }
{
    for node in given.nodes.as_slice() {
        let node = renumbered_node(alloc, node, numbers)?;
        code.push(node)?;
    }
    Ok(())
}
