//! The given events.

ghost use Rattle.std.specs.Prelude.{◌-◌, ◌≤◌, IfOk, length};
ghost use Rattle.chor_host.specs.Functions.{hosts_in, names_of};
ghost use Rattle.chor_host.specs.Tables.{functions_of};
ghost use Rattle.endpoint_code.specs.Faults.{IsFaultlessWith};
ghost use Rattle.net_core.specs.Steps.{FitsMore};
ghost use Rattle.resume.specs.Resumes.{FollowsGiven, most_events};

use crate::going::most_events;
use crate::resuming::Plan;
use chor_base::{Event, Memory};
use chor_host::HostTable;
use endpoint_code::Endpoints;
use net_core::{Followed, Network, are_few};
use replay::ReplayFault;
use std::alloc::Global;

// The network of these programs after the given events, which it keeps; as many more fit as the run may
// have.
pub fn follow_given<'a>(
    alloc: Global,
    endpoints: &'a Endpoints,
    hosts: &HostTable,
    given: &[Event],
    plan: Plan,
) -> Result<Network<'a>, ReplayFault>
    requires faultless { IsFaultlessWith (names_of (functions_of hosts.now)) endpoints.now }
    requires few { plan.schedule.steps ≤ 1000000 }
    requires given { length given.now ≤ 1000000 }
    ensures follows { FollowsGiven endpoints.now (hosts_in endpoints.now.names (functions_of hosts.now)) plan.capacity given.now result }
    ensures fits { IfOk result (λ network. FitsMore network (most_events plan.schedule (length given.now) - length given.now)) }
{
    let most = most_events(plan.schedule, given.len());
    if !are_few(endpoints, most as usize) {
        return Err(ReplayFault::Memory);
    }
    let mut network = Network::new(alloc, endpoints, plan.capacity)?;
    for (place, event) in given.iter().enumerate() {
        match network.follow(hosts, event) {
            Followed::Did => {}
            Followed::Unmatched => return Err(ReplayFault::Unmatched(place as u64 + 1)),
            Followed::Memory => return Err(ReplayFault::Memory),
        }
    }
    Ok(network)
}
