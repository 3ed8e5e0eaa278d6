//! An office that is told the events of a run.

ghost use Rattle.std.specs.Prelude.{◌≡◌, ◌++◌, ◌∷◌, [], IfOk, IfSome, None, true, false};
ghost use Rattle.chor_host.specs.Functions.{hosts_in, names_of};
ghost use Rattle.chor_host.specs.Tables.{functions_of};
ghost use Rattle.endpoint_code.specs.Faults.{IsFaultlessWith, AsksKnown, is_listed};
ghost use Rattle.net_core.specs.Follows.{HasFollowed};
ghost use Rattle.net_core.specs.Steps.{FitsMore, HasGrown};
ghost use Rattle.post_office.specs.Views.{events_of};
ghost use Rattle.office_runs.specs.Told.{AllBusy, AreAlike, IsNoRun, IsNoStep};

use crate::making::make;
use chor_base::{Event, Memory};
use chor_host::HostTable;
use endpoint_code::Endpoints;
use net_core::{Followed, Network, are_few};
use post_office::Office;
use std::alloc::Global;

// So many events are too many.
const EVENTS: usize = 1 << 28;

// Has a network and an office make an event, and tells whether both did.
fn tell(
    alloc: Global,
    network: &mut Network<'_>,
    office: &mut Office<'_>,
    hosts: &HostTable,
    event: &Event,
) -> Result<bool, Memory>
    requires hosts { AsksKnown (is_listed (names_of (functions_of hosts.now)) network.old.endpoints) network.old.endpoints }
    requires fits { FitsMore network.old 1 }
    requires alike { AreAlike (hosts_in network.old.endpoints.names (functions_of hosts.now)) network.old office.old }
    requires busy { AllBusy office.old }
    ensures followed { IfOk result (λ told. told ≡ true → HasFollowed (hosts_in network.old.endpoints.names (functions_of hosts.now)) network.old event.now network.new) }
    ensures grown { IfOk result (λ told. told ≡ true → HasGrown network.old network.new) }
    ensures alike { IfOk result (λ told. told ≡ true → AreAlike (hosts_in network.old.endpoints.names (functions_of hosts.now)) network.new office.new) }
    ensures events { IfOk result (λ told. told ≡ true → events_of office.new.history ≡ events_of office.old.history ++ event.now ∷ []) }
    ensures busy { IfOk result (λ told. told ≡ true → AllBusy office.new) }
    ensures none { IfOk result (λ told. told ≡ false → IsNoStep office.old event.now) }
{
    let count = network.count();
    match network.follow(hosts, event) {
        Followed::Did => {
            let _ = office.history();
            make(alloc, office, count, event)?;
            Ok(true)
        }
        Followed::Unmatched => Ok(false),
        Followed::Memory => Err(Memory),
    }
}

/// The office of these programs, with queues of this capacity, after these events by worker 0. `None`
/// where they are no run of the network with such queues. `Err` where there is no memory, and where 2^28
/// events come or the numbers of processes could reach 2^32.
pub fn office_of<'a>(
    alloc: Global,
    endpoints: &'a Endpoints,
    hosts: &HostTable,
    capacity: Option<u32>,
    events: &[Event],
) -> Result<Option<Office<'a>>, Memory>
    requires { IsFaultlessWith (names_of (functions_of hosts.now)) endpoints.now }
    ensures endpoints { IfOk result (λ told. IfSome told (λ office. office.endpoints ≡ endpoints.now)) }
    ensures capacity { IfOk result (λ told. IfSome told (λ office. office.capacity ≡ capacity)) }
    ensures events { IfOk result (λ told. IfSome told (λ office. events_of office.history ≡ events.now)) }
    ensures none { IfOk result (λ told. told ≡ None → IsNoRun endpoints.now (hosts_in endpoints.now.names (functions_of hosts.now)) capacity events.now) }
{
    if events.len() >= EVENTS || !are_few(endpoints, events.len()) {
        return Err(Memory);
    }
    let mut network = Network::new(alloc, endpoints, capacity)?;
    let mut office = Office::new(alloc, endpoints, hosts, capacity)?;
    for event in events {
        let told = tell(alloc, &mut network, &mut office, hosts, event)?;
        if !told {
            return Ok(None);
        }
    }
    Ok(Some(office))
}
