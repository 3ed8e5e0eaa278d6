//! The scheduled run of endpoint programs.

ghost use Rattle.std.specs.Prelude.{◌≡◌, ◌<◌, ◌≤◌, ◌^◌, [], Some, IfOk};
ghost use Rattle.chor_host.specs.Functions.{names_of, hosts_in};
ghost use Rattle.chor_host.specs.Tables.{functions_of};
ghost use Rattle.endpoint_code.specs.Faults.{IsFaultless, IsFaultlessWith};
ghost use Rattle.endpoint_code.specs.Network.{first_state};
ghost use Rattle.net_core.specs.Steps.{FitsMore};
ghost use Rattle.endpoint_runs.specs.Runs.{IsRun, IsRunOf, HasRanSo, close_of, close_by};

use crate::parts::Schedule;
use chor_base::{Entry, List, Memory, Why};
use chor_host::HostTable;
use endpoint_code::Endpoints;
use net_core::{Network, Picked, are_few};
use std::alloc::Global;

/// How a run is closed.
#[derive(Clone, Copy, PartialEq, Eq)]
pub enum Closed {
    /// Every process has ended.
    Ended,
    /// There are as many events as were asked for, and some process hasn't ended.
    Limit,
    /// No process can step: the first that hasn't ended, and why it waits.
    Stuck(u32, Why),
}

/// A run, and how it is closed.
#[derive(Drop)]
pub struct Ran {
    pub history: List<Entry>,
    pub closed: Closed,
}

/// The run of endpoint programs by the pick rule with this seed, from their first state until every
/// process has ended, there are as many events as asked for, or no process can step. The programs may
/// ask these host functions. Where numbers of processes could reach 2^32, which is in no programs within
/// the limits of a file, it answers want of memory.
pub fn run_endpoints(
    alloc: Global,
    endpoints: &Endpoints,
    hosts: &HostTable,
    seed: u64,
    steps: u64,
) -> Result<Ran, Memory>
    requires faultless { IsFaultlessWith (names_of (functions_of hosts.now)) endpoints.now }
    requires seed { seed < 2 ^ 32 }
    requires few { steps ≤ 1000000 }
    ensures { IfOk result (λ ran. IsRun endpoints.now (hosts_in endpoints.now.names (functions_of hosts.now)) seed steps ran.history (close_of ran.closed)) }
{
    run_within(alloc, endpoints, hosts, None, Schedule { seed, steps })
}

/// The same where each queue takes at most as many loads as the capacity says, if there is one.
#[tactic(auto, using(crate::proofs::Runs::run_is))]
pub fn run_within(
    alloc: Global,
    endpoints: &Endpoints,
    hosts: &HostTable,
    capacity: Option<u32>,
    schedule: Schedule,
) -> Result<Ran, Memory>
    requires faultless { IsFaultlessWith (names_of (functions_of hosts.now)) endpoints.now }
    requires seed { schedule.seed < 2 ^ 32 }
    requires few { schedule.steps ≤ 1000000 }
    ensures { IfOk result (IsRunOf (functions_of hosts.now) capacity schedule endpoints.now) }
{
    let mut network = begun(alloc, endpoints, capacity, schedule.steps)?;
    let picked = network.run_picked(hosts, schedule.seed, schedule.steps);
    made(picked, network)
}

// The network of endpoint programs in their first state, where so many events fit.
pub(crate) fn begun<'a>(
    alloc: Global,
    endpoints: &'a Endpoints,
    capacity: Option<u32>,
    steps: u64,
) -> Result<Network<'a>, Memory>
    requires faultless { IsFaultless endpoints.now }
    requires few { steps ≤ 1000000 }
    ensures endpoints { IfOk result (λ network. network.endpoints ≡ endpoints.now) }
    ensures capacity { IfOk result (λ network. network.capacity ≡ capacity) }
    ensures state { IfOk result (λ network. network.state ≡ first_state endpoints.now) }
    ensures history { IfOk result (λ network. network.history ≡ []) }
    ensures fits { IfOk result (λ network. FitsMore network steps) }
{
    if !are_few(endpoints, steps as usize) {
        return Err(Memory);
    }
    let network = Network::new(alloc, endpoints, capacity)?;
    Ok(network)
}

// The run of a network that ended so.
pub(crate) fn made(picked: Picked, network: Network<'_>) -> Result<Ran, Memory>
    ensures { IfOk result (HasRanSo picked network.entry.history) }
{
    let closed = closed_by(picked)?;
    let history = list_of(network.into_history())?;
    Ok(Ran { history, closed })
}

// How a run is closed that ended so.
fn closed_by(picked: Picked) -> Result<Closed, Memory>
    ensures { IfOk result (λ closed. close_by picked ≡ Some (close_of closed)) }
{
    match picked {
        Picked::Ended => Ok(Closed::Ended),
        Picked::Limit => Ok(Closed::Limit),
        Picked::Stuck(pid, why) => Ok(Closed::Stuck(pid, why)),
        Picked::Memory => Err(Memory),
    }
}

// A list has fewer than 2^32 items.
fn list_of(entries: Vec<Entry>) -> Result<List<Entry>, Memory>
    ensures { IfOk result (λ list. list ≡ entries.items) }
{
    if entries.len() > u32::MAX as usize {
        return Err(Memory);
    }
    Ok(List::from_vec(entries))
}
