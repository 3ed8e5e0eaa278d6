//! The code of a projection follows its choreography, and its network runs as the choreography does.

ghost use Rattle.chor_base.specs.declared.expr.Expr.{Expr};
ghost use Rattle.chor_semantics.specs.Examples.Source.{file_of, IsMade};
ghost use Rattle.chor_semantics.specs.Examples.EndlessExchange.{source};
ghost use Rattle.accepted_files.specs.Premises.{HoldsItsRoles};
ghost use Rattle.accepted_files.specs.ProjectionExample.{ServiceTwiceIsProjection, ServiceTwiceIsUnhindered};
ghost use Rattle.accepted_files.specs.ProjectionLaws.{MainFollows, MainServicesFollow, BodyServicesFollow, CallFollows, ProjectionRealizes};
ghost use Rattle.accepted_files.specs.ProjectionLaws.{ProjectionRunsAreRuns, RunsAreProjectionRuns, ProjectionNeverStuck};

/// The code of each process follows main, and that of each service what stands after its starts.
pub fn projected_code_follows()
    ensures main { MainFollows }
    ensures services { MainServicesFollow }
    ensures bodies { BodyServicesFollow }
{}

/// Code that stands at a call follows where the procedure's code follows the body.
pub fn call_follows()
    ensures { CallFollows }
{}

/// A projection meets all that the correspondence asks of endpoints.
pub fn projection_realizes()
    ensures { ProjectionRealizes }
{}

/// The network of a projection has the runs of its choreography.
pub fn projection_runs()
    ensures to { ProjectionRunsAreRuns }
    ensures back { RunsAreProjectionRuns }
{
    projection_realizes();
    correspondence::runs_agree();
}

/// The network of a projection never gets stuck.
pub fn projection_never_stuck()
    ensures { ProjectionNeverStuck }
{
    projection_realizes();
    correspondence::never_stuck();
}

/// In the endless exchange, which has a start and a procedure that calls itself with a session, everybody holds its roles.
pub fn endless_exchange_holds_its_roles()
    ensures { (x : Expr) (made : IsMade (source x)) → HoldsItsRoles (file_of (source x) made) }
{}

/// The service started twice, whose service has branches, meets all that is asked of a projection, and of one that
/// never gets stuck.
pub fn service_started_twice_is_a_projection()
    ensures whole { ServiceTwiceIsProjection }
    ensures unhindered { ServiceTwiceIsUnhindered }
{
    projection::examples::service_started_twice();
}
