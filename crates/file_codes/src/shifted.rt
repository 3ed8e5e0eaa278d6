//! Nodes of a table that is appended to another.

ghost use Rattle.std.specs.Prelude.{◌≡◌, IfOk, map};
ghost use Rattle.file_codes.specs.Shifted.{shift_id, shift_arm, IsShifted};

use chor_base::{List, Memory, NameId};
use endpoint_code::{CodeId, CodeNode};
use std::alloc::Global;

/// The number of a node whose table is appended to one of so many nodes.
pub fn shifted_id(by: u32, id: CodeId) -> Result<CodeId, Memory>
    ensures { IfOk result (λ new. new ≡ shift_id by id) }
{
    match by.checked_add(id.0) {
        Some(number) => Ok(CodeId(number)),
        None => Err(Memory),
    }
}

/// The same node, for a table that is appended to one of so many nodes.
pub fn shifted_node(alloc: Global, by: u32, node: &CodeNode) -> Result<CodeNode, Memory>
    ensures { IfOk result (IsShifted by node.now) }
{
    use CodeNode::*;
    match *node {
        Join(c, r, k, next) => Ok(Join(c, r, k, shifted_id(by, next)?)),
        Send(k, b, ref e, next) => {
            let e = e.copy(alloc)?;
            Ok(Send(k, b, e, shifted_id(by, next)?))
        }
        Recv(k, a, x, next) => Ok(Recv(k, a, x, shifted_id(by, next)?)),
        Pick(k, b, l, next) => Ok(Pick(k, b, l, shifted_id(by, next)?)),
        Branch(k, a, ref arms) => Ok(Branch(k, a, shifted_arms(alloc, by, arms.as_slice())?)),
        Throw(k, b, h, next) => Ok(Throw(k, b, h, shifted_id(by, next)?)),
        Catch(k, a, h, next) => Ok(Catch(k, a, h, shifted_id(by, next)?)),
        Set(x, ref e, next) => {
            let e = e.copy(alloc)?;
            Ok(Set(x, e, shifted_id(by, next)?))
        }
        Show(ref e, next) => {
            let e = e.copy(alloc)?;
            Ok(Show(e, shifted_id(by, next)?))
        }
        Host(x, f, ref a, ref b, next) => {
            let left = a.copy(alloc)?;
            let right = b.copy(alloc)?;
            Ok(Host(x, f, left, right, shifted_id(by, next)?))
        }
        If(ref e, first, second) => {
            let e = e.copy(alloc)?;
            Ok(If(e, shifted_id(by, first)?, shifted_id(by, second)?))
        }
        Call(f, p, ref sessions) => Ok(Call(f, p, sessions.copy(alloc)?)),
        End => Ok(End),
    }
}

// The same arms with shifted numbers.
fn shifted_arms(
    alloc: Global,
    by: u32,
    arms: &[(NameId, CodeId)],
) -> Result<List<(NameId, CodeId)>, Memory>
    ensures { IfOk result (λ list. list ≡ map (shift_arm by) arms.now) }
{
    let mut list = List::new(alloc);
    for arm in arms {
        list.push((arm.0, shifted_id(by, arm.1)?))?;
    }
    Ok(list)
}
