//! A code with its sessions exchanged.

ghost use Rattle.std.specs.Prelude.{◌<◌, IfOk, length};
ghost use Rattle.renamed_codes.specs.Renames.{IsRenamed};

use crate::exchange::Exchange;
use crate::node::{children_of, renamed_node};
use chor_base::{List, Memory};
use endpoint_code::{Code, CodeId};
use std::alloc::Global;

/// Adds the code at a number with its sessions exchanged; a session that it binds by joining keeps
/// its name. Old nodes stay.
pub fn rename(
    alloc: Global,
    code: &mut Code,
    id: CodeId,
    names: &Exchange,
) -> Result<CodeId, Memory>
    requires { id.0 < length code.old.nodes }
    ensures { IfOk result (IsRenamed names.now code.old.nodes code.new.nodes id) }
{
    let children = children_of(alloc, code.nodes.at(id.0 as usize))?;
    let mut to = List::new(alloc);
    for child in children.as_slice() {
        let renamed = rename(alloc, code, *child, names)?;
        to.push(renamed)?;
    }
    let node = renamed_node(alloc, code.nodes.at(id.0 as usize), names, to.as_slice())?;
    code.push(node)
}
