//! What holds of all tokens.

ghost use Rattle.std.specs.Prelude.{◌≡◌, ◌⊎◌, List, true};
ghost use Rattle.chor_base.specs.declared.rule.Place.{Place};
ghost use Rattle.chor_base.specs.declared.rule.Rule.{Rule};
ghost use Rattle.chor_lexer.specs.Lexeme.{Lexeme};
ghost use Rattle.grammar.specs.Faults.{is_closed};
ghost use Rattle.source_rows.specs.Sources.{file, statement, step};
ghost use Rattle.source_rows.specs.Values.{Tables, Derived, statement_of, step_of};
ghost use Rattle.source_rows.specs.Rows.{AlsoSays, statement_rows, row_statement, step_rows, row_step};
ghost use Rattle.source_rows.specs.Laws.{DeriveFile, AreSource, FirstFaultIs, HasFirstFault};

/// Tokens are one source at most.
pub fn one_source()
    ensures { (i : Tables) (ts : List Lexeme) (x y : Derived file) → DeriveFile i ts x → DeriveFile i ts y → x ≡ y }
{}

/// Tokens that are a source within the limits have no first fault.
pub fn never_refused()
    ensures { (i : Tables) (ts : List Lexeme) (rule : Rule) (place : Place) → AreSource i ts → FirstFaultIs i ts rule place → ⊥ }
{}

/// Tokens up to the end of a file are a source within the limits, or one of them is the first fault.
pub fn one_or_the_other()
    ensures { (i : Tables) (ts : List Lexeme) → is_closed ts ≡ true → AreSource i ts ⊎ HasFirstFault i ts }
{}

/// There is one first fault at most.
pub fn one_fault()
    ensures place { (i : Tables) (ts : List Lexeme) (e f : Rule) (p q : Place) → FirstFaultIs i ts e p → FirstFaultIs i ts f q → p ≡ q }
    ensures rule { (i : Tables) (ts : List Lexeme) (e f : Rule) (p q : Place) → FirstFaultIs i ts e p → FirstFaultIs i ts f q → e ≡ f }
{}

/// The rows of a statement say what the grammar says, which takes rows together that begin alike.
pub fn same_statements()
    ensures together { (i : Tables) → AlsoSays i statement_rows (row_statement i) statement (statement_of i) }
    ensures apart { (i : Tables) → AlsoSays i statement (statement_of i) statement_rows (row_statement i) }
{}

/// So do the rows of a step of a protocol.
pub fn same_steps()
    ensures together { (i : Tables) → AlsoSays i step_rows (row_step i) step (step_of i) }
    ensures apart { (i : Tables) → AlsoSays i step (step_of i) step_rows (row_step i) }
{}
