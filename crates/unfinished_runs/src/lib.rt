//! Every run of endpoint programs without faults can be continued until it is closed.
#![tactic(auto)]

ghost use Rattle.unfinished_runs.specs.Continuing.{RunsGoOn, RunsCanBeClosed, ScheduledRunsGoOn};

/// From each state that a run reaches, the pick rule leads on until every process has ended, there
/// are as many events as asked for, or no process can step.
pub fn runs_go_on()
    ensures { RunsGoOn }
{}

/// So each run with at most so many events is a prefix of a run that is closed.
pub fn runs_can_be_closed()
    ensures { RunsCanBeClosed }
{}

/// Events that follow from the first state by the pick rule are a prefix of the scheduled run.
pub fn scheduled_runs_go_on()
    ensures { ScheduledRunsGoOn }
{}
