//! The runs of a typed source follow its protocols, and its choreography never gets stuck. The
//! choreographies of a file without faults are well formed and guarded, and whoever uses a role of a
//! session along them holds it.
#![tactic(auto)]

ghost use Rattle.typed_sources.specs.Laws.{RunsConform, EndedRunsEnd, NeverStuck};
ghost use Rattle.typed_sources.specs.RoleHolders.{ListsAreParameters, MainIsHeld, BodiesAreHeld};

/// The sessions of each run of a file without faults of names, protocols and types follow their
/// protocols, and have ended where the run has.
pub fn runs_conform()
    ensures conform { RunsConform }
    ensures end { EndedRunsEnd }
{}

/// The choreography of such a file that is guarded too always has something that can happen, until
/// nothing is left.
pub fn never_stuck()
    ensures { NeverStuck }
{}

/// In a file without faults of names, protocols and types, whoever uses a role of a session holds it.
pub fn users_hold_their_roles()
    ensures lists { ListsAreParameters }
    ensures main { MainIsHeld }
    ensures bodies { BodiesAreHeld }
{}
