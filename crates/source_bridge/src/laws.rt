//! What holds of all tokens.

ghost use Rattle.std.specs.Prelude.{Bool, List};
ghost use Rattle.chor_base.specs.declared.rule.Place.{Place};
ghost use Rattle.chor_base.specs.declared.rule.Rule.{Rule};
ghost use Rattle.chor_lexer.specs.declared.token.Token.{Token};
ghost use Rattle.chor_tree.specs.Source.{Source};
ghost use Rattle.grammar.specs.Grammars.{nowhere};
ghost use Rattle.source_grammar.specs.Faults.{IsWithin};
ghost use Rattle.source_rows.specs.Values.{Tables};
ghost use Rattle.source_rows.specs.Rows.{allowing};
ghost use Rattle.source_bridge.specs.Laws.{AreKnown, DeriveSource, AreSource};

/// Tokens derive a source by the data exactly where the relations say that they are it, wherever limits may be exceeded.
pub fn same_files()
    ensures derived { (i : Tables) (may : Rule → Place → Bool) (ts : List Token) (s : Source) → AreKnown i ts →
        DeriveSource i (allowing may) ts s → AreSource i (allowing may) ts s }
    ensures said { (i : Tables) (may : Rule → Place → Bool) (ts : List Token) (s : Source) → AreKnown i ts →
        AreSource i (allowing may) ts s → DeriveSource i (allowing may) ts s }
{}

/// So within the limits: what the data derives then is what a source is.
pub fn same_sources()
    ensures derived { (i : Tables) (ts : List Token) (s : Source) → AreKnown i ts → DeriveSource i nowhere ts s → IsWithin i.words ts s }
    ensures said { (i : Tables) (ts : List Token) (s : Source) → AreKnown i ts → IsWithin i.words ts s → DeriveSource i nowhere ts s }
{}
