//! The run that goes on.

ghost use Rattle.std.specs.Prelude.{◌<◌, ◌≤◌, ◌^◌, length};
ghost use Rattle.chor_host.specs.Functions.{hosts_in, names_of};
ghost use Rattle.chor_host.specs.Tables.{functions_of};
ghost use Rattle.endpoint_code.specs.Faults.{IsFaultlessWith};
ghost use Rattle.resume.specs.Resumes.{Resumes};

use crate::following::follow_given;
use crate::going::go_on;
use chor_base::Event;
use chor_host::HostTable;
use endpoint_code::Endpoints;
use endpoint_runs::{Ran, Schedule};
use replay::ReplayFault;
use std::alloc::Global;

/// How a run goes on: how many loads each queue takes at most, if that is declared; the seed of its
/// picks; and how many events it has at most, unless more of them are given.
#[derive(Clone, Copy, PartialEq, Eq)]
pub struct Plan {
    pub capacity: Option<u32>,
    pub schedule: Schedule,
}

/// The run that begins with the given events and goes on by the pick rule, as if all of its events had
/// been picked so far: until every process has ended, there are as many events as asked for, or as
/// given where these are more, or no process can step. `Unmatched` tells the number of the first given
/// event, from 1, that is no step. Where numbers of processes could reach 2^32, which is in no programs
/// within the limits of a file, it answers want of memory.
pub fn resume(
    alloc: Global,
    endpoints: &Endpoints,
    hosts: &HostTable,
    given: &[Event],
    plan: Plan,
) -> Result<Ran, ReplayFault>
    requires faultless { IsFaultlessWith (names_of (functions_of hosts.now)) endpoints.now }
    requires seed { plan.schedule.seed < 2 ^ 32 }
    requires few { plan.schedule.steps ≤ 1000000 }
    requires given { length given.now ≤ 1000000 }
    ensures { Resumes endpoints.now (hosts_in endpoints.now.names (functions_of hosts.now)) plan given.now result }
{
    let network = follow_given(alloc, endpoints, hosts, given, plan)?;
    let ran = go_on(network, hosts, plan.schedule)?;
    Ok(ran)
}
