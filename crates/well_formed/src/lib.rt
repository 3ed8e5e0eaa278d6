//! Well-formed choreographies: scope, guarded procedures, linear channels, the holders of roles and
//! what is in transit; and when endpoint code follows a choreography, up to labels that are never
//! selected.
#![tactic(auto)]

ghost use Rattle.std.specs.Prelude.{ℕ, suc, List};
ghost use Rattle.chor_tree.specs.declared.file.File.{File};
ghost use Rattle.chor_semantics.specs.Choreography.{Ref, Choreography};
ghost use Rattle.chor_semantics.specs.Sources.{Procedure, procedures_of, tree_in, trees_of};
ghost use Rattle.endpoint_code.specs.declared.code.CodeId.{CodeId};
ghost use Rattle.endpoint_code.specs.declared.endpoints.Endpoints.{Endpoints};
ghost use Rattle.well_formed.specs.Follows.{SessionMap, Follows};
ghost use Rattle.well_formed.specs.SourceTrees.{IsSource, AllSources};
ghost use Rattle.well_formed.specs.Laws.{BodiesFit};

/// Code that follows a choreography with some fuel follows it with less.
pub fn less_fuel()
    ensures { (e : Endpoints) (procs : List Procedure) (n : ℕ) (p : Ref) (c : Choreography) (q : CodeId) (m : SessionMap) → Follows e procs (suc n) p c q m → Follows e procs n p c q m }
{}

/// The tree of a file's main and of the body of each of its procedures is one of a source.
pub fn trees_are_sources()
    ensures main { (f : File) → IsSource (tree_in (trees_of f.tree.nodes) f.body) }
    ensures procedures { (f : File) → AllSources (procedures_of f) }
{}

/// The bodies of calls are well formed.
pub fn bodies_fit()
    ensures { BodiesFit }
{}
