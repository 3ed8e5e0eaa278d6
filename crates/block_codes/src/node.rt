//! The nodes of a file, and how they go on.

ghost use Rattle.std.specs.Prelude.{◌≡◌, ◌<◌, length};
ghost use Rattle.block_codes.specs.Nodes.{IsAt, GoesOn, made_in};

use chor_tree::{File, Form, Node, NodeId, Part};

/// A node of a file, with its number.
#[derive(Clone, Copy)]
pub struct Spot<'a> {
    pub file: &'a File,
    pub id: NodeId,
    pub node: &'a Node,
}

/// The node of a number.
pub fn spot_at(file: &File, id: NodeId) -> Spot<'_>
    requires { id.0 < length file.now.tree.nodes }
    ensures file { result.file.now ≡ file.now }
    ensures id { result.id ≡ id }
    ensures at { IsAt file.now id result.node.now }
{
    Spot {
        file,
        id,
        node: file.tree.nodes.at(id.0 as usize),
    }
}

/// How a block goes on after its first node.
#[derive(Clone, Copy)]
pub enum Turn {
    /// After a statement.
    Next(NodeId),
    /// In two branches: where the condition holds, and where it doesn't.
    Branches(NodeId, NodeId),
    /// Not at all: a call or the end.
    Last,
}

/// The nodes at which the branches of a conditional begin.
#[derive(Clone, Copy)]
pub struct Branches {
    pub first: NodeId,
    pub second: NodeId,
}

/// How a block goes on after a node of this form.
pub fn turn_of(form: &Form) -> Turn
    ensures { GoesOn form.now result }
{
    match form {
        Form::Start { next, .. } => Turn::Next(*next),
        Form::Value { next, .. } => Turn::Next(*next),
        Form::Label { next, .. } => Turn::Next(*next),
        Form::Give { next, .. } => Turn::Next(*next),
        Form::Set { next, .. } => Turn::Next(*next),
        Form::Host { next, .. } => Turn::Next(*next),
        Form::Show { next, .. } => Turn::Next(*next),
        Form::If { first, second, .. } => Turn::Branches(*first, *second),
        Form::Call { .. } => Turn::Last,
        Form::End => Turn::Last,
    }
}

/// The new processes of a start; none at another form.
pub fn made_at(form: &Form) -> &[Part]
    ensures { made_in form.now ≡ result.now }
{
    match form {
        Form::Start { serve, .. } => serve.as_slice(),
        _ => &[],
    }
}
