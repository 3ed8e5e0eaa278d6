//! The text of code.

ghost use Rattle.std.specs.Prelude.{◌≡◌, ◌<◌, ◌++◌, ◌∷◌, [], All, OnOk, IfOk, None, length, codes};
ghost use Rattle.std.specs.List.{flat_map};
ghost use Rattle.chor_base.specs.Expr.{term_of};
ghost use Rattle.endpoint_code.specs.Code.{children_of};
ghost use Rattle.endpoint_code.specs.Trees.{Joins, code_at, node_tree, trees_of};
ghost use Rattle.endpoint_code.specs.Heads.{head_of, next_of};
ghost use Rattle.endpoint_text.specs.Ascending.{ascending};
ghost use Rattle.endpoint_text.specs.Places.{label_in};
ghost use Rattle.endpoint_text.specs.Text.{action_text, code_text, term_text, spaced, listed, body_text};
ghost use Rattle.endpoint_text.specs.Parts.{head_text, node_arm, node_text, operands_text};

use crate::arms::{Arm, ascending_arms};
use crate::words::{put_role, put_sessions, put_words};
use chor_base::{Expr, List, Memory, NameId, put_bytes, put_name};
use chor_lexer::print_expr;
use endpoint_code::above::next_of;
use endpoint_code::{CodeId, CodeNode, Endpoints};
use std::alloc::Global;

/// Appends a body between braces, to the end of its line.
pub fn put_body(out: &mut Vec<u8>, alloc: Global, e: &Endpoints, body: CodeId) -> Result<(), Memory>
    requires { body.0 < length e.now.code.nodes }
    ensures { OnOk result (out.new.items ≡ out.old.items ++ body_text e.now body) }
{
    put_bytes(out, b" { ".as_slice())?;
    put_code(out, alloc, e, body)?;
    put_bytes(out, b" }\n".as_slice())
}

// Appends the code at a number. A line of actions is printed without recursion.
#[cycle(code)]
fn put_code(out: &mut Vec<u8>, alloc: Global, e: &Endpoints, id: CodeId) -> Result<(), Memory>
    requires { id.0 < length e.now.code.nodes }
    ensures { OnOk result (out.new.items ≡ out.old.items ++ code_text e.now (code_at e.now.code.nodes id)) }
{
    match put_actions(out, alloc, e, id)? {
        CodeNode::Branch(session, from, arms) => {
            let sorted = open_branch(out, alloc, e, (*session, *from), arms.as_slice())?;
            put_arms(out, alloc, e, sorted.as_slice())?;
            put_bytes(out, b"}".as_slice())
        }
        CodeNode::If(expr, first, second) => {
            open_test(out, alloc, e, expr)?;
            put_code(out, alloc, e, *first)?;
            put_bytes(out, b" } else { ".as_slice())?;
            put_code(out, alloc, e, *second)?;
            put_bytes(out, b" }".as_slice())
        }
        CodeNode::Call(procedure, param, sessions) => {
            put_call(out, e, *procedure, *param, sessions)
        }
        _ => put_bytes(out, b"end".as_slice()),
    }
}

// Appends what a branch has before its arms, and answers these as they are to be printed.
fn open_branch(
    out: &mut Vec<u8>,
    alloc: Global,
    e: &Endpoints,
    place: (NameId, NameId),
    arms: &[Arm],
) -> Result<Vec<Arm>, Memory>
    ensures text { OnOk result (out.new.items ≡ out.old.items ++ (codes "branch" ++ spaced e.now (place.0 ∷ place.1 ∷ []) ++ codes " { ")) }
    ensures sorted { IfOk result (λ sorted. sorted.items ≡ ascending (label_in e.now.names) arms.now) }
{
    let (session, from) = place;
    put_words(out, e, b"branch".as_slice(), [session, from].as_slice())?;
    put_bytes(out, b" { ".as_slice())?;
    ascending_arms(alloc, &e.names, arms)
}

// Appends what a test has before its first branch.
fn open_test(out: &mut Vec<u8>, alloc: Global, e: &Endpoints, expr: &Expr) -> Result<(), Memory>
    ensures { OnOk result (out.new.items ≡ out.old.items ++ (codes "if " ++ term_text e.now (term_of expr.now) ++ codes " { ")) }
{
    put_bytes(out, b"if ".as_slice())?;
    print_expr(alloc, expr, &e.names, &e.texts, out)?;
    put_bytes(out, b" { ".as_slice())
}

// Appends arms in the order in which they are given.
#[cycle(code)]
fn put_arms(out: &mut Vec<u8>, alloc: Global, e: &Endpoints, arms: &[Arm]) -> Result<(), Memory>
    requires { All (λ arm. arm.1.0 < length e.now.code.nodes) arms.now }
    ensures { OnOk result (out.new.items ≡ out.old.items ++ flat_map (node_arm e.now) arms.now) }
{
    for arm in arms {
        put_name(out, &e.names, arm.0)?;
        put_bytes(out, b" { ".as_slice())?;
        put_code(out, alloc, e, arm.1)?;
        put_bytes(out, b" } ".as_slice())?;
    }
    Ok(())
}

// Appends the actions from a number on, and answers the node after them, which isn't one.
fn put_actions<'a>(
    out: &mut Vec<u8>,
    alloc: Global,
    e: &'a Endpoints,
    id: CodeId,
) -> Result<&'a CodeNode, Memory>
    requires { id.0 < length e.now.code.nodes }
    ensures text { IfOk result (λ last. out.new.items ++ node_text e.now last.now ≡ out.old.items ++ code_text e.now (code_at e.now.code.nodes id)) }
    ensures last { IfOk result (λ last. next_of last.now ≡ None) }
    ensures below { IfOk result (λ last. All (λ c. c.0 < id.0) (children_of last.now)) }
{
    let mut node = node_at(e, id);
    while let Some(next) = next_of(node) {
        put_action(out, alloc, e, node)?;
        put_bytes(out, b"; ".as_slice())?;
        node = node_at(e, next);
    }
    Ok(node)
}

// The node of a number: the tree there is made of the trees of those that follow it.
fn node_at(e: &Endpoints, id: CodeId) -> &CodeNode
    requires { id.0 < length e.now.code.nodes }
    ensures tree { code_at e.now.code.nodes id ≡ node_tree (trees_of e.now.code.nodes) result.now }
    ensures below { All (λ c. c.0 < id.0) (children_of result.now) }
{
    e.code.nodes.at(id.0 as usize)
}

// Appends an action. Of another node it appends nothing.
fn put_action(
    out: &mut Vec<u8>,
    alloc: Global,
    e: &Endpoints,
    node: &CodeNode,
) -> Result<(), Memory>
    ensures { OnOk result (out.new.items ≡ out.old.items ++ head_text e.now (head_of node.now)) }
{
    use CodeNode::*;
    match *node {
        Join(channel, role, session, _) => put_join(out, e, channel, role, session),
        Send(k, to, ref expr, _) => {
            put_with(out, alloc, e, b"send".as_slice(), [k, to].as_slice(), expr)
        }
        Recv(k, from, x, _) => put_words(out, e, b"recv".as_slice(), [k, from, x].as_slice()),
        Pick(k, to, l, _) => put_words(out, e, b"pick".as_slice(), [k, to, l].as_slice()),
        Throw(k, to, h, _) => put_words(out, e, b"give".as_slice(), [k, to, h].as_slice()),
        Catch(k, from, h, _) => put_words(out, e, b"gain".as_slice(), [k, from, h].as_slice()),
        Set(x, ref expr, _) => put_with(out, alloc, e, b"set".as_slice(), [x].as_slice(), expr),
        Show(ref expr, _) => put_with(out, alloc, e, b"show".as_slice(), [].as_slice(), expr),
        Host(x, f, ref left, ref right, _) => {
            put_words(out, e, b"host".as_slice(), [x, f].as_slice())?;
            put_operands(out, alloc, e, left, right)
        }
        Branch(..) | If(..) | Call(..) | End => Ok(()),
    }
}

fn put_join(
    out: &mut Vec<u8>,
    e: &Endpoints,
    channel: NameId,
    role: NameId,
    session: NameId,
) -> Result<(), Memory>
    ensures { OnOk result (out.new.items ≡ out.old.items ++ action_text e.now (Joins channel role session)) }
{
    put_role(out, e, b"join".as_slice(), channel, role)?;
    put_bytes(out, b"(".as_slice())?;
    put_name(out, &e.names, session)?;
    put_bytes(out, b")".as_slice())
}

// Appends a word, names and an expression, with a space before each of these.
fn put_with(
    out: &mut Vec<u8>,
    alloc: Global,
    e: &Endpoints,
    word: &[u8],
    names: &[NameId],
    expr: &Expr,
) -> Result<(), Memory>
    ensures { OnOk result (out.new.items ≡ out.old.items ++ (word.now ++ spaced e.now names.now ++ codes " " ++ term_text e.now (term_of expr.now))) }
{
    put_words(out, e, word, names)?;
    put_bytes(out, b" ".as_slice())?;
    print_expr(alloc, expr, &e.names, &e.texts, out)
}

// Appends the two arguments of a host call.
fn put_operands(
    out: &mut Vec<u8>,
    alloc: Global,
    e: &Endpoints,
    left: &Expr,
    right: &Expr,
) -> Result<(), Memory>
    ensures { OnOk result (out.new.items ≡ out.old.items ++ operands_text e.now (term_of left.now) (term_of right.now)) }
{
    put_bytes(out, b"(".as_slice())?;
    print_expr(alloc, left, &e.names, &e.texts, out)?;
    put_bytes(out, b", ".as_slice())?;
    print_expr(alloc, right, &e.names, &e.texts, out)?;
    put_bytes(out, b")".as_slice())
}

fn put_call(
    out: &mut Vec<u8>,
    e: &Endpoints,
    procedure: NameId,
    param: NameId,
    sessions: &List<NameId>,
) -> Result<(), Memory>
    ensures { OnOk result (out.new.items ≡ out.old.items ++ (codes "call" ++ spaced e.now (procedure ∷ param ∷ []) ++ codes " (" ++ listed e.now sessions.now ++ codes ")")) }
{
    put_words(out, e, b"call".as_slice(), [procedure, param].as_slice())?;
    put_sessions(out, e, sessions.as_slice())
}
