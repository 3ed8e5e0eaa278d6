//! Bytes are accepted, or violate a rule, and not both.
#![tactic(auto)]

ghost use Rattle.std.specs.Prelude.{◌≡◌, ℕ, List};
ghost use Rattle.chor_base.specs.declared.rule.Refusal.{Refusal};
ghost use Rattle.chor_tree.specs.declared.file.File.{File};
ghost use Rattle.source_check.specs.declared.rules.Rules.{Rules};
ghost use Rattle.source_check.specs.Source.{IsAccepted, Violates};
ghost use Rattle.source_laws.specs.Laws.{IsReadOrRefused, IsAcceptedOrRefused};

/// All bytes are the text of a file, or are no source.
pub fn read_or_refused()
    ensures { (bytes : List ℕ) → IsReadOrRefused bytes }
{}

/// All bytes are accepted or violate a rule, whichever rules are asked for: it can't be that neither
/// is so.
pub fn accepted_or_refused()
    ensures { (rules : Rules) (hosts : List (List ℕ)) (bytes : List ℕ) → IsAcceptedOrRefused rules hosts bytes }
{}

/// Bytes that are accepted violate nothing.
pub fn never_both()
    ensures { (rules : Rules) (hosts : List (List ℕ)) (bytes : List ℕ) (f : File) (r : Refusal)
        → IsAccepted rules hosts bytes f → Violates rules hosts bytes r → ⊥ }
{}

/// Bytes violate one rule first, at one place.
pub fn one_refusal()
    ensures { (rules : Rules) (hosts : List (List ℕ)) (bytes : List ℕ) (r q : Refusal)
        → Violates rules hosts bytes r → Violates rules hosts bytes q → r ≡ q }
{}
