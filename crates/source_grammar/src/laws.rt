//! What holds of all tokens.

ghost use Rattle.std.specs.Prelude.{◌≡◌, ◌⊎◌, ℕ, List, Some, slice_get};
ghost use Rattle.chor_base.specs.declared.rule.Place.{Place};
ghost use Rattle.chor_base.specs.declared.rule.Rule.{Rule};
ghost use Rattle.chor_lexer.specs.declared.token.Token.{Token};
ghost use Rattle.source_grammar.specs.Symbols.{AreWhole};
ghost use Rattle.chor_tree.specs.Source.{Source};
ghost use Rattle.chor_tree.specs.declared.file.File.{File};
ghost use Rattle.chor_tree.specs.declared.tree.NodeId.{NodeId};
ghost use Rattle.source_grammar.specs.Grammar.{FileIs};
ghost use Rattle.chor_tree.specs.Kept.{bodies_of};
ghost use Rattle.chor_tree.specs.Contents.{contents_of};
ghost use Rattle.source_grammar.specs.Paths.{Path};
ghost use Rattle.source_grammar.specs.Faults.{IsWithin, IsFirstFault};

/// Tokens are one source at most.
pub fn one_source()
    ensures { (names : List (List ℕ)) (ts : List Token) (s s' : Source) → FileIs names ts s → FileIs names ts s' → s ≡ s' }
{}

/// Tokens that are a source within the limits have no first fault.
pub fn never_refused()
    ensures { (names : List (List ℕ)) (ts : List Token) (s : Source) (rule : Rule) (place : Place) → IsWithin names ts s → IsFirstFault names ts rule place → ⊥ }
{}

/// Tokens up to the end of a file are a source within the limits, or have a first fault.
pub fn one_or_the_other()
    ensures { (names : List (List ℕ)) (ts : List Token) → AreWhole names ts → ((s : Source) × IsWithin names ts s) ⊎ ((rule : Rule) × (place : Place) × IsFirstFault names ts rule place) }
{}

/// The first fault of such tokens is one rule at one place: no token violates two rules first.
pub fn one_fault()
    ensures { (names : List (List ℕ)) (ts : List Token) (r s : Rule) (p q : Place) → AreWhole names ts → IsFirstFault names ts r p → IsFirstFault names ts s q → (r ≡ s) × (p ≡ q) }
{}

/// Each node of a file is reached from one body at most, and by one way.
pub fn one_way()
    ensures { (f : File) (i j : ℕ) (a b id : NodeId) (us vs : List NodeId) → slice_get (bodies_of (contents_of f)) i ≡ Some a → slice_get (bodies_of (contents_of f)) j ≡ Some b → Path f.tree.nodes a id us → Path f.tree.nodes b id vs → (i ≡ j) × (us ≡ vs) }
{}
