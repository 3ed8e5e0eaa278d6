//! Nodes of code.

ghost use Rattle.std.specs.Prelude.{◌≡◌, ◌∷◌, [], ℕ, Bool as AnyBool, List as AnyList, IfOk, map};
ghost use Rattle.chor_base.specs.declared.names.NameId.{NameId as AnyName};
ghost use Rattle.endpoint_code.specs.Code.{children_of};
ghost use Rattle.endpoint_code.specs.Kept.{node_there};
ghost use Rattle.endpoint_code.specs.Trees.{Does, node_tree, tree_in};
ghost use Rattle.endpoint_code.specs.Trees.{CodeTree as AnyCode};
ghost use Rattle.endpoint_reader.specs.Lines.{nexts_of};
ghost use Rattle.endpoint_names.specs.Bodies.{Body as AnyBody, line_body};
ghost use Rattle.endpoint_names.specs.Faults.{names_in};
ghost use Rattle.endpoint_making.specs.Codes.{code_id, action_of, code_of, pairs_of, action_there, line_there};

use chor_base::{List, Memory, NameId};
use endpoint_code::{CodeId, CodeNode};
use endpoint_reader::{Action, Arm, Line, LineId, Named};
use std::alloc::Global;

// The node of a line.
#[tactic(auto, using(crate::proofs::Codes::code_in, crate::proofs::Codes::arms_in_codes, crate::proofs::Codes::arms_after))]
pub fn node_of(alloc: Global, line: &Line) -> Result<CodeNode, Memory>
    ensures tree { IfOk result (λ node. (bs : AnyList AnyBody) → node_tree (map code_of bs) node ≡ code_of (line_body bs line.now)) }
    ensures children { IfOk result (λ node. children_of node ≡ map code_id (nexts_of line.now)) }
    ensures there { IfOk result (λ node. (n : AnyName → AnyBool) (t : ℕ → AnyBool) → node_there n t node ≡ line_there n t line.now) }
{
    match line {
        Line::Act(action, next) => action_node(alloc, action, code_id(*next)),
        Line::Branch(session, from, arms) => {
            let pairs = pairs_of(alloc, arms.as_slice())?;
            Ok(CodeNode::Branch(session.name, from.name, pairs))
        }
        Line::If(expr, first, second) => {
            let copied = expr.copy(alloc)?;
            Ok(CodeNode::If(copied, code_id(*first), code_id(*second)))
        }
        Line::Call(_, call) => {
            let sessions = names_in(alloc, call.sessions.as_slice())?;
            Ok(CodeNode::Call(call.name.name, call.param.name, sessions))
        }
        Line::End => Ok(CodeNode::End),
    }
}

// The node of an action that goes on at a number.
fn action_node(alloc: Global, action: &Action, next: CodeId) -> Result<CodeNode, Memory>
    ensures tree { IfOk result (λ node. (ts : AnyList AnyCode) → node_tree ts node ≡ Does (action_of action.now) (tree_in ts next)) }
    ensures children { IfOk result (λ node. children_of node ≡ next ∷ []) }
    ensures there { IfOk result (λ node. (n : AnyName → AnyBool) (t : ℕ → AnyBool) → node_there n t node ≡ action_there n t action.now) }
{
    let node = match action {
        Action::Join(c, r, k) => CodeNode::Join(c.name, r.name, k.name, next),
        Action::Send(k, b, e) => CodeNode::Send(k.name, b.name, e.copy(alloc)?, next),
        Action::Recv(k, a, x) => CodeNode::Recv(k.name, a.name, x.name, next),
        Action::Pick(k, b, l) => CodeNode::Pick(k.name, b.name, l.name, next),
        Action::Give(k, b, h) => CodeNode::Throw(k.name, b.name, h.name, next),
        Action::Gain(k, a, h) => CodeNode::Catch(k.name, a.name, h.name, next),
        Action::Set(x, e) => CodeNode::Set(x.name, e.copy(alloc)?, next),
        Action::Show(e) => CodeNode::Show(e.copy(alloc)?, next),
        Action::Host(x, f, a, b) => {
            CodeNode::Host(x.name, f.name, a.copy(alloc)?, b.copy(alloc)?, next)
        }
    };
    Ok(node)
}

// The arms of a branch.
fn pairs_of(alloc: Global, arms: &[Arm]) -> Result<List<(NameId, CodeId)>, Memory>
    ensures { IfOk result (λ pairs. pairs ≡ pairs_of arms.now) }
{
    let mut pairs = List::new(alloc);
    for arm in arms {
        pairs.push((arm.label.name, code_id(arm.body)))?;
    }
    Ok(pairs)
}

// Names, without where they stand.
pub fn names_in(alloc: Global, names: &[Named]) -> Result<List<NameId>, Memory>
    ensures { IfOk result (λ list. list ≡ names_in names.now) }
{
    let mut list = List::new(alloc);
    for name in names {
        list.push(name.name)?;
    }
    Ok(list)
}

// The number of a line's node: each line has one.
pub fn code_id(line: LineId) -> CodeId
    ensures { result ≡ code_id line }
{
    CodeId(line.0)
}
