//! Endpoint programs with the same units, whatever numbers their names, texts and nodes have, have the
//! same runs.
#![tactic(auto)]

ghost use Rattle.same_programs.specs.Laws.{SameIsReflexive, SameIsSymmetric, NamedHostsAreSame, FirstStatesAreSame, StepsAreSame, ProcessesStandAlike, EndsAreSame, RunsAreSame, ScheduledRunsAreSame};

/// Programs are the same as themselves, and being the same goes both ways.
pub fn same_is_symmetric()
    ensures reflexive { SameIsReflexive }
    ensures symmetric { SameIsSymmetric }
{}

/// Host functions that are known by their names mean the same in both programs.
pub fn named_hosts_are_same()
    ensures { NamedHostsAreSame }
{}

/// The networks begin in the same state.
pub fn first_states_are_same()
    ensures { FirstStatesAreSame }
{}

/// From the same states the same events lead to the same states.
pub fn steps_are_same()
    ensures { StepsAreSame }
{}

/// In the same states the same processes have ended, can step, and wait for the same causes.
pub fn processes_stand_alike()
    ensures each { ProcessesStandAlike }
    ensures all { EndsAreSame }
{}

/// The networks have the same runs.
pub fn runs_are_same()
    ensures { RunsAreSame }
{}

/// They have the same scheduled runs.
pub fn scheduled_runs_are_same()
    ensures { ScheduledRunsAreSame }
{}
