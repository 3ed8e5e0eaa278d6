//! Nodes of code with other names and other nodes after them.

ghost use Rattle.std.specs.Prelude.{◌≡◌, ◌∷◌, [], IfOk, IfSome, map, length};
ghost use Rattle.endpoint_code.specs.Code.{children_of};
ghost use Rattle.endpoint_code.specs.Heads.{next_of};
ghost use Rattle.renamed_codes.specs.Renames.{IsNodeRenamed, relabelled};

use crate::exchange::Exchange;
use chor_base::{List, Memory, NameId};
use endpoint_code::above::next_of;
use endpoint_code::{CodeId, CodeNode};
use std::alloc::Global;

/// The nodes that follow a node.
pub fn children_of(alloc: Global, node: &CodeNode) -> Result<List<CodeId>, Memory>
    ensures { IfOk result (λ list. list ≡ children_of node.now) }
{
    match node {
        CodeNode::Branch(_, _, arms) => targets_of(alloc, arms.as_slice()),
        CodeNode::If(_, first, second) => List::from_slice(alloc, [*first, *second].as_slice()),
        _ => match next_of(node) {
            Some(next) => List::from_slice(alloc, [next].as_slice()),
            None => Ok(List::new(alloc)),
        },
    }
}

// The nodes that the labels of a branch lead to.
fn targets_of(alloc: Global, arms: &[(NameId, CodeId)]) -> Result<List<CodeId>, Memory>
    ensures { IfOk result (λ list. list ≡ map (λ arm. arm.1) arms.now) }
{
    let mut list = List::new(alloc);
    for arm in arms {
        list.push(arm.1)?;
    }
    Ok(list)
}

/// The same node with its sessions exchanged, before these nodes.
pub fn renamed_node(
    alloc: Global,
    node: &CodeNode,
    names: &Exchange,
    to: &[CodeId],
) -> Result<CodeNode, Memory>
    requires { length to.now ≡ length (children_of node.now) }
    ensures { IfOk result (IsNodeRenamed names.now node.now to.now) }
{
    use CodeNode::*;
    match node {
        Branch(k, a, arms) => {
            let arms = relabelled(alloc, arms.as_slice(), to)?;
            Ok(Branch(names.of(*k), *a, arms))
        }
        If(e, _, _) => {
            let e = e.copy(alloc)?;
            Ok(If(e, to[0], to[1]))
        }
        Call(f, p, sessions) => {
            let sessions = names.of_all(alloc, sessions.as_slice())?;
            Ok(Call(*f, *p, sessions))
        }
        End => Ok(End),
        _ => renamed_action(alloc, node, names, to[0]),
    }
}

// The same action with its sessions exchanged, before this node. Of another node it is `End`.
fn renamed_action(
    alloc: Global,
    node: &CodeNode,
    names: &Exchange,
    next: CodeId,
) -> Result<CodeNode, Memory>
    ensures { IfOk result (λ new. IfSome (next_of node.now) (λ _. IsNodeRenamed names.now node.now (next ∷ []) new)) }
{
    use CodeNode::*;
    match *node {
        Join(c, r, k, _) => Ok(Join(c, r, k, next)),
        Send(k, b, ref e, _) => {
            let e = e.copy(alloc)?;
            Ok(Send(names.of(k), b, e, next))
        }
        Recv(k, a, x, _) => Ok(Recv(names.of(k), a, x, next)),
        Pick(k, b, l, _) => Ok(Pick(names.of(k), b, l, next)),
        Throw(k, b, h, _) => Ok(Throw(names.of(k), b, names.of(h), next)),
        Catch(k, a, h, _) => Ok(Catch(names.of(k), a, names.of(h), next)),
        Set(x, ref e, _) => {
            let e = e.copy(alloc)?;
            Ok(Set(x, e, next))
        }
        Show(ref e, _) => {
            let e = e.copy(alloc)?;
            Ok(Show(e, next))
        }
        Host(x, f, ref a, ref b, _) => {
            let left = a.copy(alloc)?;
            let right = b.copy(alloc)?;
            Ok(Host(x, f, left, right, next))
        }
        Branch(..) | If(..) | Call(..) | End => Ok(End),
    }
}

// The same labels before other nodes.
fn relabelled(
    alloc: Global,
    arms: &[(NameId, CodeId)],
    to: &[CodeId],
) -> Result<List<(NameId, CodeId)>, Memory>
    requires { length to.now ≡ length arms.now }
    ensures { IfOk result (λ list. list ≡ relabelled arms.now to.now) }
{
    let mut list = List::new(alloc);
    for place in 0..arms.len() {
        list.push((arms[place].0, to[place]))?;
    }
    Ok(list)
}
