//! The codes of all service roles.

ghost use Rattle.std.specs.Prelude.{◌≡◌, All, IfOk, IfErr, OnOk, Some};
ghost use Rattle.chor_tree.specs.Names.{channel_of};
ghost use Rattle.projection.specs.MergeFaults.{sites_of, services_of, HasClash};
ghost use Rattle.service_codes.specs.Starts.{HasNamesResolved, AreAllStarts};
ghost use Rattle.service_codes.specs.Services.{roles_of, AddsServices, AreServices, StopsAt};

use crate::fault::ServiceFault;
use crate::served::Served;
use crate::service::service_code;
use crate::starts::{Started, all_starts, starts_of};
use chor_base::List;
use chor_tree::{File, Service};
use endpoint_code::{Code, ServiceCode};
use std::alloc::Global;

/// The code of each service role of each channel that a start names, in the order of their
/// declaration. `Clash` comes at the first of which the codes after all starts of its channel can't
/// be merged.
pub fn services(
    alloc: Global,
    file: &File,
    code: &mut Code,
) -> Result<List<ServiceCode>, ServiceFault>
    requires names { HasNamesResolved file.now }
    requires clean { All (λ s. HasClash file.now s → ⊥) (sites_of file.now) }
    ensures services { IfOk result (AreServices file.now (services_of file.now) code.old.nodes code.new.nodes) }
    ensures stopped { IfErr result (StopsAt file.now (services_of file.now)) }
{
    let starts = all_starts(alloc, file)?;
    let started = Started {
        file,
        starts: starts.as_slice(),
    };
    let mut services = List::new(alloc);
    for service in file.services.as_slice() {
        put_services(alloc, &started, service, code, &mut services)?;
    }
    Ok(services)
}

// Adds the code of each service role of a channel, if a start names it.
fn put_services(
    alloc: Global,
    started: &Started<'_>,
    service: &Service,
    code: &mut Code,
    services: &mut List<ServiceCode>,
) -> Result<(), ServiceFault>
    requires starts { AreAllStarts started.now.file.now started.now.starts.now }
    requires names { HasNamesResolved started.now.file.now }
    requires clean { All (λ s. HasClash started.now.file.now s → ⊥) (sites_of started.now.file.now) }
    requires declared { channel_of started.now.file.now service.now.name.name ≡ Some service.now }
    ensures services { OnOk result (AddsServices started.now.file.now (roles_of started.now.file.now service.now) code.old.nodes code.new.nodes services.old services.new) }
    ensures stopped { IfErr result (StopsAt started.now.file.now (roles_of started.now.file.now service.now)) }
{
    let starts = starts_of(alloc, started, service.name.name)?;
    if starts.is_empty() {
        return Ok(());
    }
    for role in service.serve.as_slice() {
        let served = Served {
            channel: service.name,
            role: *role,
        };
        let body = service_code(alloc, started.file, starts.as_slice(), served, code)?;
        services.push(ServiceCode {
            channel: service.name.name,
            role: role.name,
            body,
        })?;
    }
    Ok(())
}
