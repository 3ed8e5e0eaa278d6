//! Endpoint code as a table of nodes.

ghost use Rattle.std.specs.Prelude.{◌≡◌, ◌<◌, ◌^◌, ◌++◌, ◌∷◌, [], All, IfOk, OnOk, OnErr, length};
ghost use Rattle.endpoint_code.specs.Code.{children_of, IsClosed};

use chor_base::{Expr, List, Memory, NameId};
use std::alloc::Global;

/// The number of a node in its table.
#[derive(Clone, Copy, PartialEq, Eq)]
pub struct CodeId(pub u32);

/// What a process does, and where it goes on.
#[derive(Drop)]
pub enum CodeNode {
    /// `join a[R](k)`: joins channel a in role R; the new session is k.
    Join(NameId, NameId, NameId, CodeId),
    /// `send k B e`: sends the value of e to role B.
    Send(NameId, NameId, Expr, CodeId),
    /// `recv k A x`: receives a value from role A into x.
    Recv(NameId, NameId, NameId, CodeId),
    /// `pick k B l`: selects label l at role B.
    Pick(NameId, NameId, NameId, CodeId),
    /// `branch k A { l { .. } .. }`: goes on as role A selects.
    Branch(NameId, NameId, List<(NameId, CodeId)>),
    /// `give k B h`: hands the endpoint h over to role B.
    Throw(NameId, NameId, NameId, CodeId),
    /// `gain k A h`: takes an endpoint over from role A as h.
    Catch(NameId, NameId, NameId, CodeId),
    /// `set x e`
    Set(NameId, Expr, CodeId),
    /// `show e`
    Show(Expr, CodeId),
    /// `host x f(e, e)`
    Host(NameId, NameId, Expr, Expr, CodeId),
    /// `if e { .. } else { .. }`
    If(Expr, CodeId, CodeId),
    /// `call F p (k, ..)`: goes on as the code of procedure F for its parameter p.
    Call(NameId, NameId, List<NameId>),
    /// `end`
    End,
}

/// Nodes, each after those that follow it.
pub struct Code {
    pub nodes: List<CodeNode>,
    ghost closed: { IsClosed nodes },
}

impl Drop for Code {
    fn drop(self) {
        let Code { nodes: _ } = self;
    }
}

impl Code {
    /// No nodes. It takes no memory.
    pub fn new(alloc: Global) -> Self
        ensures { result.nodes ≡ [] }
    {
        Code {
            nodes: List::new(alloc),
        }
    }

    /// Adds a node whose children are in the table. A table of 2^32 - 1 nodes answers `Memory`.
    pub fn push(&mut self, node: CodeNode) -> Result<CodeId, Memory>
        requires { All (λ c. c.0 < length self.old.nodes) (children_of node) }
        ensures ok { IfOk result (λ id. (id.0 ≡ length self.old.nodes) × (self.new.nodes ≡ self.old.nodes ++ node ∷ [])) }
        ensures short { OnOk result (length self.new.nodes < 2 ^ 32) }
        ensures err { OnErr result (self.new ≡ self.old) }
    {
        let number = self.nodes.count();
        self.nodes.push(node)?;
        Ok(CodeId(number))
    }
}
