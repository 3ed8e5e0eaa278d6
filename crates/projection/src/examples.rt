//! What the projection means, by the codes of small choreographies.

ghost use Rattle.std.specs.Prelude.{◌≡◌, ◌∷◌, []};
ghost use Rattle.chor_base.specs.declared.names.NameId.{NameId};
ghost use Rattle.chor_semantics.specs.Examples.Names.{p, r, d, S, up, down, Loop};
ghost use Rattle.chor_tree.specs.Children.{IsClosed as IsClosedTree};
ghost use Rattle.chor_semantics.specs.Examples.Source.{nodes_of};
ghost use Rattle.chor_semantics.specs.Examples.ServiceTwice.{source};
ghost use Rattle.endpoint_code.specs.Code.{IsClosed};
ghost use Rattle.endpoint_code.specs.Bodies.{AreInside};
ghost use Rattle.endpoint_code.specs.declared.code.CodeId.{CodeId};
ghost use Rattle.endpoint_code.specs.Trees.{CodeTree, Calls, Ends};
ghost use Rattle.projection.specs.Codes.{IsCodeOf};
ghost use Rattle.projection.specs.Projects.{IsServiceCode, Projects};
ghost use Rattle.projection.specs.Examples.BranchesByLabels as told;
ghost use Rattle.projection.specs.Examples.BranchesByLabels.{ok, ko, arm};
ghost use Rattle.projection.specs.Examples.ServiceTwice as twice;
ghost use Rattle.projection.specs.Examples.EndlessExchange as endless;
ghost use Rattle.chor_base.specs.declared.expr.Expr.{Expr};
ghost use Rattle.chor_semantics.specs.Examples.EndlessExchange.{loop};

/// Branches told by labels. The process that decides has both branches; the other has the least
/// code above both, which offers exactly the two labels.
pub fn branches_told_by_labels()
    ensures decider { IsCodeOf [] r told.main told.code_of_r }
    ensures other { IsCodeOf [] p told.main (told.offers (arm ko ∷ arm ok ∷ [])) }
    // neither with one label alone, nor with one more
    ensures fewer { (l : NameId) → ¬ (IsCodeOf [] p told.main (told.offers (arm l ∷ []))) }
    ensures more { (l : NameId) → ¬ (IsCodeOf [] p told.main (told.offers (arm l ∷ arm ko ∷ arm ok ∷ []))) }
    // where no label tells the branches, there is no code
    ensures untold { (c : CodeTree) → ¬ (IsCodeOf [] p told.untold_main c) }
{}

/// A service started twice. Its code is the least above those of both starts, which is more than
/// the code of either. The endpoints have no line for the channel that no start names.
pub fn service_started_twice()
    ensures service { IsServiceCode [] d S twice.starts (twice.offers ((down, twice.sends_two) ∷ (up, twice.sends_one) ∷ [])) }
    ensures whole { (tree : IsClosedTree (nodes_of source)) (kept : twice.FileIsKept) (code : IsClosed twice.nodes) (inside : AreInside twice.nodes [] twice.services twice.processes) (numbered : twice.AreKept) → Projects (twice.file tree kept) (twice.endpoints code inside numbered) }
    // neither the code after one start, nor with one label more
    ensures fewer { (l : NameId) (c : CodeId) → ¬ (IsServiceCode [] d S twice.starts (twice.offers ((l, c) ∷ []))) }
    ensures more { (l : NameId) (c : CodeId) → ¬ (IsServiceCode [] d S twice.starts (twice.offers ((l, c) ∷ (down, twice.sends_two) ∷ (up, twice.sends_one) ∷ []))) }
{}

/// The endless exchange. A call goes on as the code of the parameter in whose place the process is
/// passed, with the sessions that list this parameter; where it isn't passed, its code ends.
pub fn endless_exchange()
    ensures body { (e : Expr) → IsCodeOf (loop ∷ []) p (endless.from 2 e) endless.body_of_p }
    ensures main { (e : Expr) → IsCodeOf (loop ∷ []) p (endless.from 4 e) endless.code_of_p }
    ensures unlisted { (e : Expr) → IsCodeOf (endless.unlisted ∷ []) p (endless.from 0 e) (Calls Loop p []) }
    ensures stranger { (e : Expr) → IsCodeOf (loop ∷ []) r (endless.from 0 e) Ends }
{}
