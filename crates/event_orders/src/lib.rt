//! The happens-before relation of a run, and what all its rearrangements share.
#![tactic(auto)]

ghost use Rattle.event_orders.specs.Causes.{CausesGenerateHappensBefore};
ghost use Rattle.event_orders.specs.CausalPast.{CausalPastsAreRuns, CausalPastsBeginExtensions};
ghost use Rattle.event_orders.specs.Commute.{IndependentStepsCommute, QueueEndsHaveOneUser, SameStatesHaveSameRuns};
ghost use Rattle.event_orders.specs.Holders.{RolesHaveOneHolder};
ghost use Rattle.event_orders.specs.Laws.{LinearExtensionsAreRuns, RearrangementsShareHappensBefore, UnorderedAreReversed};
ghost use Rattle.event_orders.specs.SameEvents.{RearrangementsHaveSameEvents, SameEventsAreRearranged};

/// Two steps one after the other whose events are independent can be made in the other order, to the
/// same state, where no two processes hold one role of a session.
pub fn independent_steps_commute()
    ensures { IndependentStepsCommute }
{}

/// Where no two processes hold one role of a session, each end of a queue has one user: events that
/// share no process don't both send, or both receive, on one triple.
pub fn queue_ends_have_one_user()
    ensures { QueueEndsHaveOneUser }
{}

/// From states that are the same, the same events lead to states that are the same.
pub fn same_states_have_same_runs()
    ensures { SameStatesHaveSameRuns }
{}

/// In each run of endpoint programs without a fault of names, no two processes hold one role of a
/// session at the same time.
pub fn roles_have_one_holder()
    ensures { RolesHaveOneHolder }
{}

/// Each linear extension of a run's happens-before relation is a run with the same state after it.
pub fn linear_extensions_are_runs()
    ensures { LinearExtensionsAreRuns }
{}

/// An event happens before another exactly if it comes before it in every rearrangement of the run.
pub fn rearrangements_share_happens_before()
    ensures { RearrangementsShareHappensBefore }
{}

/// Where an event doesn't happen before another one, some linear extension has them the other way
/// round.
pub fn unordered_are_reversed()
    ensures { UnorderedAreReversed }
{}

/// The rearrangements of a run are the runs of the same endpoint programs that have, process by
/// process, the same events.
pub fn rearrangements_have_same_events()
    ensures to { RearrangementsHaveSameEvents }
    ensures back { SameEventsAreRearranged }
{}

/// The causes of events generate the happens-before relation.
pub fn causes_generate_happens_before()
    ensures { CausesGenerateHappensBefore }
{}

/// An event and all that happens before it are a run by themselves.
pub fn causal_pasts_are_runs()
    ensures { CausalPastsAreRuns }
{}

/// An event and all that happens before it come first in some linear extension.
pub fn causal_pasts_begin_extensions()
    ensures { CausalPastsBeginExtensions }
{}
