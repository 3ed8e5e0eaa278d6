//! What all rearrangements of a run of an accepted source share.

ghost use Rattle.accepted_orders.specs.Networks.{AreNetworksOfFiles};
ghost use Rattle.accepted_orders.specs.Rearrangements.{RearrangementsShareOrder, ExtensionsAreRearrangements, ConcurrentAreReversed};
ghost use Rattle.accepted_orders.specs.Rearrangements.{RearrangementsHaveSameEvents, PastsAreRuns};
ghost use Rattle.accepted_orders.specs.Leads.{PastsAreReplayed};

/// An event of a run happens before another exactly if it comes before it in every rearrangement.
pub fn rearrangements_share_order()
    ensures { RearrangementsShareOrder }
{
    networks();
    event_orders::rearrangements_share_happens_before();
}

/// Each order of a run's events that extends happens-before is a rearrangement.
pub fn extensions_are_rearrangements()
    ensures { ExtensionsAreRearrangements }
{
    networks();
    event_orders::linear_extensions_are_runs();
}

/// Where an event doesn't happen before another one, some rearrangement has them the other way round.
pub fn concurrent_are_reversed()
    ensures { ConcurrentAreReversed }
{
    networks();
    event_orders::linear_extensions_are_runs();
    event_orders::unordered_are_reversed();
}

/// The rearrangements of a run are the runs of its choreography that have, process by process, the
/// same events.
pub fn rearrangements_have_same_events()
    ensures { RearrangementsHaveSameEvents }
{
    networks();
    event_orders::rearrangements_have_same_events();
}

/// The causal past of an event is a run by itself, and the beginning of an order that extends
/// happens-before.
pub fn pasts_are_runs()
    ensures { PastsAreRuns }
{
    networks();
    event_orders::causal_pasts_are_runs();
    event_orders::causal_pasts_begin_extensions();
}

/// What is told of the causal past of an event is replayed.
pub fn pasts_are_replayed()
    ensures { PastsAreReplayed }
{
    networks();
    event_orders::causal_pasts_are_runs();
    event_orders::causal_pasts_begin_extensions();
    accepted_replays::runs_end_together();
}

// What is proved of the networks of checked files.
fn networks()
    ensures { AreNetworksOfFiles }
{
    accepted_files::projection_is_faultless();
    accepted_files::projection_is_above();
    accepted_files::checked_runs();
}
