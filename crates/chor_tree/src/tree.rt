//! Choreographies as tables of nodes.

ghost use Rattle.std.specs.Prelude.{◌≡◌, ◌<◌, ◌^◌, ◌++◌, ◌∷◌, [], All, IfOk, OnOk, OnErr, length};
ghost use Rattle.chor_tree.specs.Children.{children_of, IsClosed};

use crate::file::Named;
use chor_base::{Expr, List, Memory, NameId, Place};
use std::alloc::Global;

/// The number of a node in its tree.
#[derive(Clone, Copy, PartialEq, Eq)]
pub struct NodeId(pub u32);

/// A process and a role, written `p[A]`.
#[derive(Clone, Copy)]
pub struct Part {
    pub process: Named,
    pub role: Named,
}

/// A statement or tail, and where it begins in the file.
#[derive(Drop)]
pub struct Node {
    pub place: Place,
    pub form: Form,
}

/// The forms of statements and tails. `next` is the node that follows.
#[derive(Drop)]
pub enum Form {
    /// `start a(k): p[A], .. new r[C], ..`
    Start {
        channel: Named,
        session: Named,
        active: List<Part>,
        serve: List<Part>,
        next: NodeId,
    },
    /// `p[A].e -> q[B].x : k`
    Value {
        from: Part,
        expr: Expr,
        to: Part,
        var: NameId,
        session: Named,
        next: NodeId,
    },
    /// `p[A] -> q[B] : k.l`
    Label {
        from: Part,
        to: Part,
        session: Named,
        label: NameId,
        next: NodeId,
    },
    /// `p[A] -> q[B] : k(h[R])`; the process of `given` is the session that is handed over.
    Give {
        from: Part,
        to: Part,
        session: Named,
        given: Part,
        next: NodeId,
    },
    /// `p.x := e`
    Set {
        process: Named,
        var: NameId,
        expr: Expr,
        next: NodeId,
    },
    /// `p.x := host f(e, e)`
    Host {
        process: Named,
        var: NameId,
        name: Named,
        left: Expr,
        right: Expr,
        next: NodeId,
    },
    /// `p show e`
    Show {
        process: Named,
        expr: Expr,
        next: NodeId,
    },
    /// `if p.e { .. } else { .. }`
    If {
        process: Named,
        expr: Expr,
        first: NodeId,
        second: NodeId,
    },
    /// `call F(p, ..; k, ..)`
    Call {
        name: Named,
        processes: List<Named>,
        sessions: List<Named>,
    },
    /// `end`
    End,
}

/// Nodes, each after those that follow it in the choreography.
pub struct Tree {
    pub nodes: List<Node>,
    ghost closed: { IsClosed nodes },
}

impl Drop for Tree {
    fn drop(self) {
        let Tree { nodes: _ } = self;
    }
}

impl Tree {
    /// No nodes. It takes no memory.
    pub fn new(alloc: Global) -> Self
        ensures { result.nodes ≡ [] }
    {
        Tree {
            nodes: List::new(alloc),
        }
    }

    /// Adds a node whose children are in the tree. A tree that has 2^32 - 1 nodes answers `Memory`.
    pub fn push(&mut self, node: Node) -> Result<NodeId, Memory>
        requires { All (λ c. c.0 < length self.old.nodes) (children_of node.form) }
        ensures ok { IfOk result (λ id. (id.0 ≡ length self.old.nodes) × (self.new.nodes ≡ self.old.nodes ++ node ∷ [])) }
        ensures short { OnOk result (length self.new.nodes < 2 ^ 32) }
        ensures err { OnErr result (self.new ≡ self.old) }
    {
        let number = self.nodes.count();
        self.nodes.push(node)?;
        Ok(NodeId(number))
    }
}
