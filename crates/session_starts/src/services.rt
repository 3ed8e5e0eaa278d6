//! The processes that a start makes for the service roles of its channel.

ghost use Rattle.std.specs.Prelude.{◌≡◌, ◌<◌, ◌+◌, ◌^◌, ◌++◌, map, All, length, IfOk, OnOk, true};
ghost use Rattle.endpoint_code.specs.Network.{service_of, served, served_parts};
ghost use Rattle.endpoint_code.specs.Faults.{has_service};
ghost use Rattle.session_starts.specs.Machines.{standing_of, number_of};

use chor_base::{List, Memory, NameId};
use endpoint_code::{Channel, CodeId, Endpoints, ServiceCode};
use endpoint_machine::{Binding, Machine};
use std::alloc::Global;

// The code of a service role.
fn service_named(services: &[ServiceCode], channel: NameId, role: NameId) -> CodeId
    requires { has_service channel role services.now ≡ true }
    ensures { result ≡ service_of services.now channel role }
{
    for service in services {
        if service.channel == channel && service.role == role {
            return service.body;
        }
    }
    unreachable!()
}

// New processes for the service roles of a channel, numbered from `first` on. In each the session
// has the channel's name.
pub fn serve(
    alloc: Global,
    endpoints: &Endpoints,
    channel: &Channel,
    sid: u32,
    first: u32,
) -> Result<Vec<Machine>, Memory>
    requires provided { All (λ r. has_service channel.now.name r endpoints.now.services ≡ true) channel.now.serve }
    requires fits { first + length channel.now.serve < 2 ^ 32 }
    ensures machines { IfOk result (λ machines. map standing_of machines.items ≡ served endpoints.now channel.now.name sid channel.now.serve) }
    ensures numbers { IfOk result (λ machines. map number_of machines.items ≡ map (λ q. q.1) (served_parts channel.now.serve first)) }
{
    let mut machines = Vec::new(alloc);
    let services = endpoints.services.as_slice();
    for (place, role) in channel.serve.as_slice().iter().enumerate() {
        let body = service_named(services, channel.name, *role);
        let binding = Binding {
            session: channel.name,
            sid,
            role: *role,
        };
        let machine = Machine::new(alloc, first + place as u32, body, Some(binding))?;
        machines.push(machine)?;
    }
    Ok(machines)
}

// Adds the service roles with the numbers of their processes.
pub fn add_served(
    parts: &mut List<(NameId, u32)>,
    roles: &[NameId],
    first: u32,
) -> Result<(), Memory>
    requires { first + length roles.now < 2 ^ 32 }
    ensures { OnOk result (parts.new ≡ parts.old ++ served_parts roles.now first) }
{
    for (place, role) in roles.iter().enumerate() {
        parts.push((*role, first + place as u32))?;
    }
    Ok(())
}
