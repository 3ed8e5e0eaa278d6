//! Merging of the codes of two branches.
#![tactic(auto)]

ghost use Rattle.std.specs.Prelude.{List, ◌∷◌, []};
ghost use Rattle.endpoint_code.specs.Trees.{CodeTree};
ghost use Rattle.endpoint_code.specs.Above.{IsAbove};
ghost use Rattle.endpoint_code.specs.Labels.{HasDistinctLabels, IsReordered};
ghost use Rattle.endpoint_code.specs.LeastAbove.{IsLeastAbove};

mod arms;
mod fault;
mod meeting;
mod merging;

pub use fault::MergeFault;
pub use merging::merge;

/// The least code above two codes is their join in the order of codes: each code above both is
/// above it, it is one up to the order of labels, and it doesn't matter which code comes first.
pub fn merging_joins()
    ensures least { (a b q r : CodeTree) → IsLeastAbove (a ∷ b ∷ []) q → HasDistinctLabels r → IsAbove r a → IsAbove r b → IsAbove r q }
    ensures unique { (codes : List CodeTree) (q p : CodeTree) → IsLeastAbove codes q → IsLeastAbove codes p → IsReordered q p }
    ensures symmetric { (a b q : CodeTree) → IsLeastAbove (a ∷ b ∷ []) q → IsLeastAbove (b ∷ a ∷ []) q }
    ensures idempotent { (a : CodeTree) → HasDistinctLabels a → IsLeastAbove (a ∷ a ∷ []) a }
    // where one is above the other, it is the answer
    ensures above { (a b : CodeTree) → HasDistinctLabels a → IsAbove a b → IsLeastAbove (a ∷ b ∷ []) a }
{}
