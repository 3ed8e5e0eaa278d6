//! What a walk through a body needs of each node: which nodes follow it, and which block begins there.

ghost use Rattle.std.specs.Prelude.{◌≡◌};
ghost use Rattle.chor_tree.specs.Children.{children_of};
ghost use Rattle.chor_tree.specs.Following.{followers};

use crate::{Form, NodeId};

/// What follows a node.
#[derive(Clone, Copy)]
pub enum Following {
    /// Nothing, after a tail.
    Nothing,
    /// The node after a statement.
    One(NodeId),
    /// The two branches of a conditional.
    Either(NodeId, NodeId),
}

/// What follows a node of this form.
pub fn what_follows(form: &Form) -> Following
    ensures { followers result ≡ children_of form.now }
{
    match form {
        Form::Start { next, .. }
        | Form::Value { next, .. }
        | Form::Label { next, .. }
        | Form::Give { next, .. }
        | Form::Set { next, .. }
        | Form::Host { next, .. }
        | Form::Show { next, .. } => Following::One(*next),
        Form::If { first, second, .. } => Following::Either(*first, *second),
        Form::Call { .. } | Form::End => Following::Nothing,
    }
}
