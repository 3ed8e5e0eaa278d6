//! What holds of the codes of processes, and of the faults of merging.

ghost use Rattle.std.specs.Prelude.{◌≡◌, ◌∷◌, [], List};
ghost use Rattle.std.specs.List.{AllZip};
ghost use Rattle.chor_base.specs.declared.names.NameId.{NameId};
ghost use Rattle.chor_base.specs.declared.rule.Rule.{Rule as AnyRule};
ghost use Rattle.chor_base.specs.declared.rule.Place.{Place};
ghost use Rattle.chor_tree.specs.declared.file.File.{File};
ghost use Rattle.chor_tree.specs.declared.file.Proc.{Proc};
ghost use Rattle.chor_tree.specs.declared.file.Named.{Named};
ghost use Rattle.chor_semantics.specs.Choreography.{Choreography, put};
ghost use Rattle.endpoint_code.specs.Trees.{CodeTree};
ghost use Rattle.endpoint_code.specs.Labels.{HasDistinctLabels, IsReordered};
ghost use Rattle.endpoint_code.specs.LeastAbove.{IsLeastAbove};
ghost use Rattle.chor_semantics.specs.Blocks.{choreography_of};
ghost use Rattle.projection.specs.Codes.{IsCodeOf};
ghost use Rattle.projection.specs.Projects.{starts_of, session_as, IsStartCode};
ghost use Rattle.projection.specs.Renamed.{renamed, exchanged, session_by, IsUndoneBy, IsUnused};
ghost use Rattle.projection.specs.MergeFaults.{Site, HasClash, HasServiceClash, IsFirstMergeFault};

/// A process has one code in a choreography, up to the order of labels, and no branch in it has a
/// label twice.
pub fn one_code()
    ensures unique { (procs : List Proc) (r : NameId) (c : Choreography) (q p : CodeTree) → IsCodeOf procs r c q → IsCodeOf procs r c p → IsReordered q p }
    ensures distinct { (procs : List Proc) (r : NameId) (c : Choreography) (q : CodeTree) → IsCodeOf procs r c q → HasDistinctLabels q }
{}

/// Whether branches or starts clash doesn't depend on which codes of the process are taken: where
/// one code is above some of them, there is no clash.
pub fn one_verdict()
    ensures branches { (f : File) (s : Site) (first second q : CodeTree) → IsCodeOf f.procs s.process (choreography_of s.first) first → IsCodeOf f.procs s.process (choreography_of s.second) second → IsLeastAbove (first ∷ second ∷ []) q → HasClash f s → ⊥ }
    ensures starts { (f : File) (x : Named × Named) (codes : List CodeTree) (q : CodeTree) → AllZip (IsStartCode f.procs x.0.name x.1.name) (starts_of f x.0.name) codes → IsLeastAbove codes q → HasServiceClash f x → ⊥ }
{}

/// A file has one first fault of merging at most.
pub fn one_refusal()
    ensures { (f : File) (r s : AnyRule) (p q : Place) (x y : NameId) → IsFirstMergeFault f r p x → IsFirstMergeFault f s q y → (r ≡ s) × (p ≡ q) × (x ≡ y) }
{}

/// Where sessions get other names by a map that can be undone, the code gets the same names. So the
/// code after a start, with the channel's name for its session, is the code with its own name,
/// renamed, where the channel's name isn't used as a session.
pub fn renamed_code()
    ensures renamed { (f g : NameId → NameId) → IsUndoneBy f g → (procs : List Proc) (r : NameId) (c : Choreography) (q : CodeTree) → IsCodeOf procs r c q → IsCodeOf procs r (put (λ p. p) (session_by f) c) (renamed f q) }
    ensures start { (procs : List Proc) (k a r : NameId) (c : Choreography) (q : CodeTree) → IsUnused a c → IsCodeOf procs r c q → IsCodeOf procs r (put (λ p. p) (session_as k.0 a) c) (renamed (exchanged k a) q) }
{}
