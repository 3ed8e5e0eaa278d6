//! Procedures and bodies.

ghost use Rattle.std.specs.Prelude.{◌≡◌, ◌<◌, All, length, true, false};
ghost use Rattle.chor_base.specs.declared.rule.Place.{Place};
ghost use Rattle.chor_tree.specs.Children.{children_of};
ghost use Rattle.chor_tree.specs.Source.{Ends, nowhere, block_in, block_of, blocks_of};
ghost use Rattle.chor_tree.specs.Both.{blocks_same, procedure_same};
ghost use Rattle.chor_tree.specs.Forms.{is_end};

use crate::comparison::both::Say;
use crate::comparison::form::same_heads;
use crate::file::{File, Proc};
use crate::tree::{Form, NodeId, Tree};
use crate::walks::{Following, what_follows};

impl Say for Proc {
    ghost same = { λ f g. procedure_same f g };

    fn says(&self, other: &Self, left: &File, right: &File) -> bool {
        self.name.says(&other.name, left, right)
            & self.params.says(&other.params, left, right)
            & self.sessions.says(&other.sessions, left, right)
            & same_bodies(left, right, self.body, other.body)
    }
}

// Whether the blocks that begin at two nodes are the same. A node that isn't there is an end.
pub fn same_bodies(left: &File, right: &File, id: NodeId, other: NodeId) -> bool
    ensures { result ≡ blocks_same left.now right.now id other }
{
    let is_there = has_node(&left.tree, id);
    let other_is_there = has_node(&right.tree, other);
    if is_there && other_is_there {
        return same_blocks(left, right, id, other);
    }
    (!is_there || is_end(form_at(&left.tree, id)))
        && (!other_is_there || is_end(form_at(&right.tree, other)))
}

// Whether the blocks that begin at two nodes are the same. Only what stands in the first branch of a
// conditional is compared by recursion.
fn same_blocks(left: &File, right: &File, id: NodeId, other: NodeId) -> bool
    requires there { id.0 < length left.now.tree.nodes }
    requires other { other.0 < length right.now.tree.nodes }
    ensures { result ≡ blocks_same left.now right.now id other }
{
    let mut node = id;
    let mut other_node = other;
    'body: loop {
        let form = form_at(&left.tree, node);
        let other_form = form_at(&right.tree, other_node);
        if !same_heads(left, right, form, other_form) {
            return false;
        }
        match (what_follows(form), what_follows(other_form)) {
            (Following::Nothing, Following::Nothing) => return true,
            (Following::One(next), Following::One(other_next)) => {
                node = next;
                other_node = other_next;
            }
            (Following::Either(first, second), Following::Either(other_first, other_second)) => {
                if !same_blocks(left, right, first, other_first) {
                    return false;
                }
                node = second;
                other_node = other_second;
            }
            _ => return false,
        }
    }
}

fn has_node(tree: &Tree, id: NodeId) -> bool
    ensures there { result ≡ true → id.0 < length tree.now.nodes }
    ensures block { result ≡ false → block_in (blocks_of tree.now.nodes) id ≡ Ends nowhere }
{
    (id.0 as usize) < tree.nodes.len()
}

// What stands at a node.
fn form_at(tree: &Tree, id: NodeId) -> &Form
    requires { id.0 < length tree.now.nodes }
    ensures block { (place : Place) × (block_in (blocks_of tree.now.nodes) id ≡ block_of (blocks_of tree.now.nodes) place result.now) }
    ensures below { All (λ c. c.0 < id.0) (children_of result.now) }
{
    &tree.nodes.at(id.0 as usize).form
}

fn is_end(form: &Form) -> bool
    ensures { result ≡ is_end form.now }
{
    match form {
        Form::End => true,
        _ => false,
    }
}
