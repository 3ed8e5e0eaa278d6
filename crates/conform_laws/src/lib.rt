//! The runs of an accepted source conform to its protocols role by role, so the log of a run is never
//! judged astray.
#![tactic(auto)]

ghost use Rattle.conform_laws.specs.Laws.{RunsConformByRole, EndedRunsEndByRole};

/// Each run of an accepted source conforms by role, and a complete run has ended by role.
pub fn runs_conform_by_role()
    ensures conform { RunsConformByRole }
    ensures end { EndedRunsEndByRole }
{
    accepted_files::projection_is_above();
    accepted_files::checked_runs();
    typed_sources::runs_conform();
}
