//! Endpoint programs that are written without a fault have none; bytes that are endpoint programs
//! violate no rule, and bytes violate one rule at most; the text of endpoint programs has tokens and
//! units that say them, and what is read from it are the same programs.
#![tactic(auto)]

mod printed;
mod tokens;

ghost use Rattle.std.specs.Prelude.{◌≡◌, ℕ, List};
ghost use Rattle.chor_base.specs.declared.rule.Refusal.{Refusal};
ghost use Rattle.endpoint_code.specs.declared.endpoints.Endpoints.{Endpoints};
ghost use Rattle.endpoint_check.specs.Programs.{AreProgramsOf, ViolatesPrograms};
ghost use Rattle.endpoint_laws.specs.Laws.{MadeIsFaultless, MadeAsksKnown, FaultlessIsMade, AreAlike};
ghost use Rattle.endpoint_laws.specs.Reading.{BodiesAreWritten, NamesAreWords};

pub use printed::{text_has_units, text_is_taken, text_reads_back};
pub use tokens::text_has_symbols;

/// What is made of units without a fault of names and beginnings has no such fault.
pub fn made_is_faultless()
    ensures { MadeIsFaultless }
{}

/// What is made of units without a fault of names asks no host function that isn't there, if the table of
/// lines has no others than those of the units.
pub fn made_asks_known()
    ensures { MadeAsksKnown }
{}

/// And back: where what is made has no fault, the units that it is made of have none.
pub fn faultless_is_made()
    ensures { FaultlessIsMade }
{}

/// The bodies that are judged and made are those that are written, name by name and place by place.
pub fn bodies_are_written()
    ensures { BodiesAreWritten }
{}

/// Names of a table are the same where they are written with the same bytes. So faults of names, which
/// are told by numbers, are faults of what is written.
pub fn names_are_words()
    ensures { NamesAreWords }
{}

/// Bytes that are the text of endpoint programs violate nothing.
pub fn never_both()
    ensures { (hosts : List (List ℕ)) (bytes : List ℕ) (e : Endpoints) (r : Refusal)
        → AreProgramsOf hosts bytes e → ViolatesPrograms hosts bytes r → ⊥ }
{}

/// Bytes violate one rule first, at one place.
pub fn one_refusal()
    ensures { (hosts : List (List ℕ)) (bytes : List ℕ) (r q : Refusal)
        → ViolatesPrograms hosts bytes r → ViolatesPrograms hosts bytes q → r ≡ q }
{}

/// Endpoint programs that the same bytes are the text of are made of the same units.
pub fn one_text()
    ensures { (hosts : List (List ℕ)) (bytes : List ℕ) (e f : Endpoints)
        (p : AreProgramsOf hosts bytes e) (q : AreProgramsOf hosts bytes f) → AreAlike p q }
{}
