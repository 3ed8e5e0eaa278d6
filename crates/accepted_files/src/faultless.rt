//! The projection of a file without faults has none either, and asks only host functions that are
//! known; those that a file without fault of names asks have answers.

ghost use Rattle.accepted_files.specs.FaultlessLaws.{AskedFunctionsAnswer, ProjectionAsksKnown, ProjectionIsFaultless};

/// Where no host function that a file asks is unknown, and each has answers, each of them has an
/// answer to any two numbers.
pub fn asked_functions_answer()
    ensures { AskedFunctionsAnswer }
{}

/// The bodies of endpoint programs that are the projection of a source ask only host functions with
/// these names, where the source has no fault of its names with them. The source needn't keep rules
/// of other classes, as long as it has a projection.
pub fn projection_asks_known()
    ensures { ProjectionAsksKnown }
{}

/// The projection of a guarded file without faults of names, protocols and types has no fault of
/// names and calls, so that a network can run it.
pub fn projection_is_faultless()
    ensures { ProjectionIsFaultless }
{}
