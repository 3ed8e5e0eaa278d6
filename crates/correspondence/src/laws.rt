//! The runs of a network are the runs of its choreography, and it never gets stuck.

ghost use Rattle.correspondence.specs.Laws.{NetworkStepsAreSteps, StepsAreNetworkSteps, NetworkRunsAreRuns, RunsAreNetworkRuns, NeverStuck};
ghost use Rattle.correspondence.specs.Laws.{TerminatedHasEnded, EndedIsTerminated, LoadsAreTaken, FirstStatesCorrespond};

/// The first configuration of a file and the first state of its endpoints correspond.
pub fn first_states_correspond()
    ensures { FirstStatesCorrespond }
{}

/// A network and a choreography that correspond make the same steps, and correspond after each.
pub fn steps_agree()
    ensures to { NetworkStepsAreSteps }
    ensures back { StepsAreNetworkSteps }
{}

/// A network and its choreography have the same runs.
pub fn runs_agree()
    ensures to { NetworkRunsAreRuns }
    ensures back { RunsAreNetworkRuns }
{}

/// A network in which nothing can happen has ended.
pub fn never_stuck()
    ensures { NeverStuck }
{}

/// A network and a choreography that correspond end together.
pub fn end_together()
    ensures to { EndedIsTerminated }
    ensures back { TerminatedHasEnded }
{}

/// No load that comes first in a queue is refused where a process stands to receive from it.
pub fn loads_are_taken()
    ensures { LoadsAreTaken }
{}
