//! What two nodes of code have in common.

ghost use Rattle.std.specs.Prelude.{◌≡◌, ◌≢◌, true, IfOk, Some, None};
ghost use Rattle.endpoint_code.specs.Heads.{head_of, next_of};
ghost use Rattle.branch_merge.specs.Meetings.{IsMeeting, is_test, TestsAs};

use chor_base::{Memory, NameId};
use endpoint_code::above::{have_same_head, next_of};
use endpoint_code::{CodeId, CodeNode};
use std::alloc::Global;

/// Two codes of one table.
#[derive(Clone, Copy)]
pub struct Pair {
    pub left: CodeId,
    pub right: CodeId,
}

/// How two nodes go on.
#[derive(Drop)]
pub enum Meeting {
    /// They differ in what they do.
    Apart,
    /// They are alike, and nothing follows.
    Alike,
    /// They do the same and go on.
    Next(Pair),
    /// They test the same: how they go on where it holds, and where it doesn't.
    Either(Pair, Pair),
    /// They offer labels in the same session to the same role.
    Arms(NameId, NameId, Vec<(NameId, CodeId)>, Vec<(NameId, CodeId)>),
}

/// What two nodes have in common.
pub fn meet(alloc: Global, left: &CodeNode, right: &CodeNode) -> Result<Meeting, Memory>
    ensures { IfOk result (IsMeeting left.now right.now) }
{
    if !have_same_head(left, right) {
        return Ok(Meeting::Apart);
    }
    match (left, right) {
        (CodeNode::Branch(k, from, qs), CodeNode::Branch(_, _, ps)) => {
            let qs = qs.as_slice().to_vec(alloc)?;
            let ps = ps.as_slice().to_vec(alloc)?;
            Ok(Meeting::Arms(*k, *from, qs, ps))
        }
        (CodeNode::If(_, p, r), CodeNode::If(_, q, s)) => {
            let first = Pair {
                left: *p,
                right: *q,
            };
            Ok(Meeting::Either(
                first,
                Pair {
                    left: *r,
                    right: *s,
                },
            ))
        }
        _ => match (next_of(left), next_of(right)) {
            (Some(p), Some(q)) => Ok(Meeting::Next(Pair { left: p, right: q })),
            _ => Ok(Meeting::Alike),
        },
    }
}

/// The same action, going on at `next`.
pub fn with_next(alloc: Global, node: &CodeNode, next: CodeId) -> Result<CodeNode, Memory>
    requires { next_of node.now ≢ None }
    ensures head { IfOk result (λ n. head_of n ≡ head_of node.now) }
    ensures next { IfOk result (λ n. next_of n ≡ Some next) }
{
    use CodeNode::*;
    match node {
        Join(c, r, k, _) => Ok(Join(*c, *r, *k, next)),
        Send(k, b, e, _) => Ok(Send(*k, *b, e.copy(alloc)?, next)),
        Recv(k, a, x, _) => Ok(Recv(*k, *a, *x, next)),
        Pick(k, b, l, _) => Ok(Pick(*k, *b, *l, next)),
        Throw(k, b, h, _) => Ok(Throw(*k, *b, *h, next)),
        Catch(k, a, h, _) => Ok(Catch(*k, *a, *h, next)),
        Set(x, e, _) => Ok(Set(*x, e.copy(alloc)?, next)),
        Show(e, _) => Ok(Show(e.copy(alloc)?, next)),
        Host(x, f, a, b, _) => {
            let left = a.copy(alloc)?;
            Ok(Host(*x, *f, left, b.copy(alloc)?, next))
        }
        Branch(..) | If(..) | Call(..) | End => unreachable!(),
    }
}

/// The same test, going on at `first` where it holds, and else at `second`.
pub fn with_branches(
    alloc: Global,
    node: &CodeNode,
    first: CodeId,
    second: CodeId,
) -> Result<CodeNode, Memory>
    requires { is_test node.now ≡ true }
    ensures { IfOk result (TestsAs node.now first second) }
{
    match node {
        CodeNode::If(e, _, _) => Ok(CodeNode::If(e.copy(alloc)?, first, second)),
        _ => unreachable!(),
    }
}
