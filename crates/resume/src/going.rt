//! What follows the given events.

ghost use Rattle.std.specs.Prelude.{◌≡◌, ◌-◌, ◌<◌, ◌≤◌, ◌^◌, IfOk, Some, length};
ghost use Rattle.chor_host.specs.Functions.{hosts_in, names_of};
ghost use Rattle.chor_host.specs.Tables.{functions_of};
ghost use Rattle.endpoint_code.specs.Faults.{AsksKnown, is_listed};
ghost use Rattle.endpoint_runs.specs.Runs.{close_by, close_of};
ghost use Rattle.net_core.specs.Steps.{FitsMore};
ghost use Rattle.resume.specs.Resumes.{HasGoneOn, most_events};

use chor_base::{Entry, List, Memory};
use chor_host::HostTable;
use endpoint_runs::{Closed, Ran, Schedule};
use net_core::{Network, Picked};

// The run of a network that goes on by the pick rule after the events that it keeps.
pub fn go_on(network: Network<'_>, hosts: &HostTable, schedule: Schedule) -> Result<Ran, Memory>
    requires hosts { AsksKnown (is_listed (names_of (functions_of hosts.now)) network.endpoints) network.endpoints }
    requires seed { schedule.seed < 2 ^ 32 }
    requires few { schedule.steps ≤ 1000000 }
    requires given { length network.history ≤ 1000000 }
    requires fits { FitsMore network (most_events schedule (length network.history) - length network.history) }
    ensures { IfOk result (HasGoneOn (hosts_in network.entry.endpoints.names (functions_of hosts.now)) schedule network.entry) }
{
    let mut network = network;
    let most = most_events(schedule, network.history().len());
    let picked = network.run_picked(hosts, schedule.seed, most);
    let closed = closed_by(picked)?;
    let history = list_of(network.into_history())?;
    Ok(Ran { history, closed })
}

// How many events the run has at most.
pub fn most_events(schedule: Schedule, given: usize) -> u64
    ensures { result ≡ most_events schedule given }
{
    schedule.steps.max(given as u64)
}

// How a run is closed that ended so.
fn closed_by(picked: Picked) -> Result<Closed, Memory>
    ensures { IfOk result (λ closed. close_by picked ≡ Some (close_of closed)) }
{
    match picked {
        Picked::Ended => Ok(Closed::Ended),
        Picked::Limit => Ok(Closed::Limit),
        Picked::Stuck(pid, why) => Ok(Closed::Stuck(pid, why)),
        Picked::Memory => Err(Memory),
    }
}

// A list has fewer than 2^32 items.
fn list_of(entries: Vec<Entry>) -> Result<List<Entry>, Memory>
    ensures { IfOk result (λ list. list ≡ entries.items) }
{
    if entries.len() > u32::MAX as usize {
        return Err(Memory);
    }
    Ok(List::from_vec(entries))
}
