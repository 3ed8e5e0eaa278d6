//! The scheduled run as its definition says.

ghost use Rattle.std.specs.Prelude.{◌≡◌, ◌≢◌, ◌<◌, ◌≤◌, ◌-◌, ◌^◌, IfOk, true, length};
ghost use Rattle.chor_host.specs.Functions.{names_of, hosts_in};
ghost use Rattle.chor_host.specs.Tables.{functions_of};
ghost use Rattle.endpoint_code.specs.Faults.{IsFaultlessWith, AsksKnown, is_listed};
ghost use Rattle.endpoint_code.specs.NetworkRuns.{none_can_step};
ghost use Rattle.net_core.specs.Picks.{Runs, Turns};
ghost use Rattle.net_core.specs.Steps.{FitsMore};
ghost use Rattle.endpoint_runs.specs.Runs.{IsRunOf};
ghost use Rattle.endpoint_runs.specs.StepByStep.{TellsWhy};

use crate::parts::Schedule;
use crate::run::{Ran, begun, made};
use chor_base::Memory;
use chor_host::HostTable;
use endpoint_code::Endpoints;
use net_core::{Network, Picked, Step};
use std::alloc::Global;

/// The run that `run_within` makes, step by step: the process that the pick rule takes makes its event.
/// Before each event each process is looked at.
#[tactic(auto, using(crate::proofs::Runs::run_is))]
pub fn run_stepwise(
    alloc: Global,
    endpoints: &Endpoints,
    hosts: &HostTable,
    capacity: Option<u32>,
    schedule: Schedule,
) -> Result<Ran, Memory>
    requires faultless { IsFaultlessWith (names_of (functions_of hosts.now)) endpoints.now }
    requires seed { schedule.seed < 2 ^ 32 }
    requires few { schedule.steps ≤ 1000000 }
    ensures { IfOk result (IsRunOf (functions_of hosts.now) capacity schedule endpoints.now) }
{
    let mut network = begun(alloc, endpoints, capacity, schedule.steps)?;
    let picked = go_on(&mut network, hosts, schedule);
    made(picked, network)
}

// Goes on until the run is closed.
fn go_on(network: &mut Network<'_>, hosts: &HostTable, schedule: Schedule) -> Picked
    requires hosts { AsksKnown (is_listed (names_of (functions_of hosts.now)) network.old.endpoints) network.old.endpoints }
    requires seed { schedule.seed < 2 ^ 32 }
    requires before { length network.old.history ≤ schedule.steps }
    requires fits { FitsMore network.old (schedule.steps - length network.old.history) }
    ensures { Runs (hosts_in network.old.endpoints.names (functions_of hosts.now)) schedule.seed schedule.steps network.old result network.new }
{
    loop {
        if let Some(picked) = turn(network, hosts, schedule) {
            return picked;
        }
    }
}

// One event by the pick rule, unless the run is closed.
fn turn(network: &mut Network<'_>, hosts: &HostTable, schedule: Schedule) -> Option<Picked>
    requires hosts { AsksKnown (is_listed (names_of (functions_of hosts.now)) network.old.endpoints) network.old.endpoints }
    requires seed { schedule.seed < 2 ^ 32 }
    requires fits { length network.old.history ≢ schedule.steps → FitsMore network.old 1 }
    ensures { Turns (hosts_in network.old.endpoints.names (functions_of hosts.now)) schedule.seed schedule.steps network.old result network.new }
{
    if network.finished() {
        return Some(Picked::Ended);
    }
    if network.history().len() as u64 == schedule.steps {
        return Some(Picked::Limit);
    }
    let Some(pid) = network.pick(schedule.seed) else {
        return Some(stuck(network, hosts));
    };
    match network.step(pid, hosts) {
        Step::Did => None,
        _ => Some(Picked::Memory),
    }
}

// Where no process can step: the first that hasn't ended, and why it waits.
fn stuck(network: &mut Network<'_>, hosts: &HostTable) -> Picked
    requires hosts { AsksKnown (is_listed (names_of (functions_of hosts.now)) network.old.endpoints) network.old.endpoints }
    requires fits { FitsMore network.old 1 }
    requires none { none_can_step network.old.endpoints network.old.capacity network.old.state network.old.state.machines ≡ true }
    ensures { TellsWhy network.old result network.new }
{
    for pid in 0..network.count() {
        match network.step(pid, hosts) {
            Step::Ended => {}
            Step::Waits(why) => return Picked::Stuck(pid, why),
            _ => return Picked::Memory,
        }
    }
    Picked::Memory
}
