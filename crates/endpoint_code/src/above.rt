//! When one code is above another: it offers at least the same branches.

ghost use Rattle.std.specs.Prelude.{◌≡◌, ◌<◌, ◌+◌, All, length, IsTrue, ◌↔◌};
ghost use Rattle.chor_base.specs.Expr.{term_of};
ghost use Rattle.endpoint_code.specs.Code.{children_of};
ghost use Rattle.endpoint_code.specs.Trees.{CodeTree, trees_of, node_tree, arms_in, code_at};
ghost use Rattle.endpoint_code.specs.Above.{IsAbove, AreAbove, HasAbove};
ghost use Rattle.endpoint_code.specs.Labels.{HasDistinctLabels, IsReordered};
ghost use Rattle.endpoint_code.specs.Heads.{head_of, next_of};

use crate::code::{Code, CodeId, CodeNode};
use chor_base::{Expr, List, NameId};

/// Above is an order, in which codes above each other differ at most in the order of labels.
pub fn above_is_an_order()
    ensures reflexive { (q : CodeTree) → IsAbove q q }
    ensures transitive { (r q p : CodeTree) → IsAbove r q → IsAbove q p → IsAbove r p }
    ensures antisymmetric { (q p : CodeTree) → HasDistinctLabels q → HasDistinctLabels p → IsAbove q p → IsAbove p q → IsReordered q p }
    // and the order of labels doesn't count
    ensures reordered { (q p : CodeTree) → IsReordered q p → IsAbove q p × IsAbove p q }
{}

// Whether two expressions are written alike.
fn is_same(left: &Expr, right: &Expr) -> bool
    ensures { IsTrue result ↔ (term_of left.now ≡ term_of right.now) }
{
    match (left, right) {
        (Expr::Lit(a), Expr::Lit(b)) => a == b,
        (Expr::Var(a), Expr::Var(b)) => a == b,
        (Expr::Un(o, a), Expr::Un(u, b)) => o == u && is_same(a, b),
        (Expr::Bin(o, a, c), Expr::Bin(u, b, d)) => o == u && is_same(a, b) && is_same(c, d),
        _ => false,
    }
}

// Whether two lists have the same names in the same order.
fn are_same(left: &List<NameId>, right: &List<NameId>) -> bool
    ensures { IsTrue result ↔ (left.now ≡ right.now) }
{
    left.as_slice() == right.as_slice()
}

/// Whether two nodes do the same, whatever follows them.
pub fn have_same_head(left: &CodeNode, right: &CodeNode) -> bool
    ensures { IsTrue result ↔ (head_of left.now ≡ head_of right.now) }
{
    use CodeNode::*;
    match (left, right) {
        (Join(a, r, k, _), Join(b, s, h, _)) => a == b && r == s && k == h,
        (Send(k, a, e, _), Send(h, b, f, _)) => k == h && a == b && is_same(e, f),
        (Recv(k, a, x, _), Recv(h, b, y, _)) => k == h && a == b && x == y,
        (Pick(k, a, l, _), Pick(h, b, m, _)) => k == h && a == b && l == m,
        (Branch(k, a, _), Branch(h, b, _)) => k == h && a == b,
        (Throw(k, a, g, _), Throw(h, b, f, _)) => k == h && a == b && g == f,
        (Catch(k, a, g, _), Catch(h, b, f, _)) => k == h && a == b && g == f,
        (Set(x, e, _), Set(y, f, _)) => x == y && is_same(e, f),
        (Show(e, _), Show(f, _)) => is_same(e, f),
        (Host(x, f, a, b, _), Host(y, g, c, d, _)) => {
            x == y && f == g && is_same(a, c) && is_same(b, d)
        }
        (If(e, _, _), If(f, _, _)) => is_same(e, f),
        (Call(f, x, ks), Call(g, y, hs)) => f == g && x == y && are_same(ks, hs),
        (End, End) => true,
        _ => false,
    }
}

/// The node after an action.
pub fn next_of(node: &CodeNode) -> Option<CodeId>
    ensures { result ≡ next_of node.now }
{
    use CodeNode::*;
    match node {
        Join(_, _, _, next)
        | Send(_, _, _, next)
        | Recv(_, _, _, next)
        | Pick(_, _, _, next)
        | Throw(_, _, _, next)
        | Catch(_, _, _, next)
        | Set(_, _, next)
        | Show(_, next)
        | Host(_, _, _, _, next) => Some(*next),
        Branch(..) | If(..) | Call(..) | End => None,
    }
}

impl Code {
    /// The node of a number: the tree there is made of the trees of those that follow it.
    pub fn node_at(&self, id: CodeId) -> &CodeNode
        requires { id.0 < length self.now.nodes }
        ensures tree { code_at self.now.nodes id ≡ node_tree (trees_of self.now.nodes) result.now }
        ensures below { All (λ c. c.0 < length self.now.nodes) (children_of result.now) }
        ensures before { All (λ c. c.0 < id.0) (children_of result.now) }
    {
        self.nodes.at(id.0 as usize)
    }

    /// Whether the code at q is above the code at p: it offers at least the same branches, and is
    /// the same in all else. It takes no memory.
    #[cycle(above)]
    pub fn is_above(&self, q: CodeId, p: CodeId) -> bool
        requires q { q.0 < length self.now.nodes }
        requires p { p.0 < length self.now.nodes }
        ensures { IsTrue result ↔ IsAbove (code_at self.now.nodes q) (code_at self.now.nodes p) }
    {
        let (upper, lower) = (self.node_at(q), self.node_at(p));
        have_same_head(upper, lower) && self.follow_above(upper, lower)
    }

    // Whether what follows one node is above what follows another that does the same.
    #[cycle(above)]
    fn follow_above(&self, upper: &CodeNode, lower: &CodeNode) -> bool
        requires upper { All (λ c. c.0 < length self.now.nodes) (children_of upper.now) }
        requires lower { All (λ c. c.0 < length self.now.nodes) (children_of lower.now) }
        requires same { head_of upper.now ≡ head_of lower.now }
        ensures { IsTrue result ↔ IsAbove (node_tree (trees_of self.now.nodes) upper.now) (node_tree (trees_of self.now.nodes) lower.now) }
    {
        match (upper, lower) {
            (CodeNode::Branch(_, _, qs), CodeNode::Branch(_, _, ps)) => {
                self.are_above(qs.as_slice(), ps.as_slice())
            }
            (CodeNode::If(_, q, r), CodeNode::If(_, p, s)) => {
                self.is_above(*q, *p) && self.is_above(*r, *s)
            }
            _ => match (next_of(upper), next_of(lower)) {
                (Some(q), Some(p)) => self.is_above(q, p),
                _ => true,
            },
        }
    }

    // Whether each arm of ps has one above it in qs.
    #[cycle(above)]
    fn are_above(&self, qs: &[(NameId, CodeId)], ps: &[(NameId, CodeId)]) -> bool
        requires qs { All (λ arm. arm.1.0 < length self.now.nodes) qs.now }
        requires ps { All (λ arm. arm.1.0 < length self.now.nodes) ps.now }
        ensures { IsTrue result ↔ AreAbove (arms_in (trees_of self.now.nodes) qs.now) (arms_in (trees_of self.now.nodes) ps.now) }
    {
        for arm in ps {
            if !self.has_above(qs, arm.0, arm.1) {
                return false;
            }
        }
        true
    }

    // Whether an arm of qs has this label, and code above p.
    #[cycle(above)]
    fn has_above(&self, qs: &[(NameId, CodeId)], label: NameId, p: CodeId) -> bool
        requires qs { All (λ arm. arm.1.0 < length self.now.nodes) qs.now }
        requires p { p.0 < length self.now.nodes }
        ensures { IsTrue result ↔ HasAbove (arms_in (trees_of self.now.nodes) qs.now) label (code_at self.now.nodes p) }
    {
        for arm in qs {
            if self.is_arm_above(*arm, label, p) {
                return true;
            }
        }
        false
    }

    // Whether an arm has this label, and code above p.
    #[cycle(above)]
    fn is_arm_above(&self, arm: (NameId, CodeId), label: NameId, p: CodeId) -> bool
        requires arm { arm.1.0 < length self.now.nodes }
        requires p { p.0 < length self.now.nodes }
        ensures { IsTrue result ↔ ((arm.0 ≡ label) × IsAbove (code_at self.now.nodes arm.1) (code_at self.now.nodes p)) }
    {
        arm.0 == label && self.is_above(arm.1, p)
    }
}
