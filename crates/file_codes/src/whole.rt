//! The projection of whole files.

ghost use Rattle.std.specs.Prelude.{◌≡◌, All, IfOk, OnOk, IfErr};
ghost use Rattle.std.specs.List.{AllZip};
ghost use Rattle.projection.specs.Projects.{Projects};
ghost use Rattle.projection.specs.MergeFaults.{sites_of, services_of, HasClash, HasServiceClash, IsMergeDenial};
ghost use Rattle.service_codes.specs.Starts.{HasNamesResolved};
ghost use Rattle.service_codes.specs.Services.{IsServiceIn};
ghost use Rattle.file_codes.specs.Prepared.{ArePrepared};
ghost use Rattle.file_codes.specs.Units.{AreUnits};

use crate::channels::channels;
use crate::denied::{branches_denied, starts_denied};
use crate::numbered::are_there;
use crate::prepared::Prepared;
use crate::units::{Units, units_of};
use chor_base::{Denied, List, Memory};
use chor_tree::File;
use endpoint_code::{Endpoints, ServiceCode};
use service_codes::services;
use std::alloc::Global;

/// The endpoint programs of a file whose names have no fault.
///
/// M1 comes at the first branches that clash: procedures in source order, then main; in a body
/// conditionals by the brace that closes them; at one the processes in the order in which they are
/// declared. It names the process that can't tell the branches apart. Where no branches clash, M2
/// comes at the first service role for which no one program serves all starts, by channel and role
/// as declared: at the channel's name in its service, with the role.
pub fn project(alloc: Global, file: &File) -> Result<Endpoints, Denied>
    requires { HasNamesResolved file.now }
    ensures projects { IfOk result (Projects file.now) }
    ensures clean { OnOk result (All (λ s. HasClash file.now s → ⊥) (sites_of file.now)) }
    ensures served { OnOk result (All (λ x. HasServiceClash file.now x → ⊥) (services_of file.now)) }
    ensures denied { IfErr result (IsMergeDenial file.now) }
{
    let nothing = Prepared {
        params: &[],
        processes: &[],
        clean: &[],
    };
    project_from(alloc, file, &nothing)
}

/// The same as `project`, with prepared codes where these fit.
pub fn project_from(
    alloc: Global,
    file: &File,
    prepared: &Prepared<'_>,
) -> Result<Endpoints, Denied>
    requires names { HasNamesResolved file.now }
    requires prepared { ArePrepared file.now prepared.now }
    ensures projects { IfOk result (Projects file.now) }
    ensures clean { OnOk result (All (λ s. HasClash file.now s → ⊥) (sites_of file.now)) }
    ensures served { OnOk result (All (λ x. HasServiceClash file.now x → ⊥) (services_of file.now)) }
    ensures denied { IfErr result (IsMergeDenial file.now) }
{
    match units_of(alloc, file, prepared) {
        Ok(units) => with_services(alloc, file, units),
        Err(stop) => Err(branches_denied(alloc, file, stop)),
    }
}

// The endpoint programs of these units and of the services.
fn with_services(alloc: Global, file: &File, units: Units) -> Result<Endpoints, Denied>
    requires names { HasNamesResolved file.now }
    requires units { AreUnits file.now units }
    ensures projects { IfOk result (Projects file.now) }
    ensures served { OnOk result (All (λ x. HasServiceClash file.now x → ⊥) (services_of file.now)) }
    ensures denied { IfErr result (IsMergeDenial file.now) }
{
    let mut units = units;
    match services(alloc, file, &mut units.code) {
        Ok(services) => Ok(endpoints(alloc, file, units, services)?),
        Err(fault) => Err(starts_denied(alloc, file, fault)),
    }
}

// The endpoint programs of these units and services.
fn endpoints(
    alloc: Global,
    file: &File,
    units: Units,
    services: List<ServiceCode>,
) -> Result<Endpoints, Memory>
    requires units { AreUnits file.now units }
    requires services { AllZip (IsServiceIn file.now units.code.nodes) (services_of file.now) services }
    ensures { IfOk result (Projects file.now) }
{
    if !are_there(&file.names, &file.texts, units.code.nodes.as_slice()) {
        return Err(Memory);
    }
    let Units {
        procedures,
        processes,
        code,
    } = units;
    Ok(Endpoints {
        names: file.names.copy(alloc)?,
        texts: file.texts.copy(alloc)?,
        channels: channels(alloc, file)?,
        procedures,
        services,
        processes,
        code,
    })
}
