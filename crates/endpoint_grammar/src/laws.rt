//! What holds of all tokens.

ghost use Rattle.std.specs.Prelude.{◌≡◌, ◌⊎◌, [], List, true};
ghost use Rattle.chor_base.specs.declared.rule.Place.{Place};
ghost use Rattle.chor_base.specs.declared.rule.Rule.{Rule};
ghost use Rattle.chor_lexer.specs.Lexeme.{Lexeme};
ghost use Rattle.grammar.specs.Grammars.{nowhere, Derives};
ghost use Rattle.grammar.specs.Faults.{IsFirstFault, IsDerived, HasFault, is_closed};
ghost use Rattle.endpoint_grammar.specs.Grammar.{endpoints};
ghost use Rattle.endpoint_grammar.specs.Values.{rules, Derived};

/// Tokens are one file at most.
pub fn one_program()
    ensures { (ts : List Lexeme) (x y : Derived endpoints) → Derives rules nowhere endpoints ts x [] → Derives rules nowhere endpoints ts y [] → x ≡ y }
{}

/// Tokens that are a file within the limits have no first fault.
pub fn never_refused()
    ensures { (ts : List Lexeme) (rule : Rule) (place : Place) → IsDerived rules endpoints ts → IsFirstFault rules endpoints ts rule place → ⊥ }
{}

/// Tokens up to the end of a file are a file within the limits, or one of them is the first fault.
pub fn one_or_the_other()
    ensures { (ts : List Lexeme) → is_closed ts ≡ true → IsDerived rules endpoints ts ⊎ HasFault rules endpoints ts }
{}

/// There is one first fault at most.
pub fn one_fault()
    ensures place { (ts : List Lexeme) (e f : Rule) (p q : Place) → IsFirstFault rules endpoints ts e p → IsFirstFault rules endpoints ts f q → p ≡ q }
    ensures rule { (ts : List Lexeme) (e f : Rule) (p q : Place) → IsFirstFault rules endpoints ts e p → IsFirstFault rules endpoints ts f q → e ≡ f }
{}
