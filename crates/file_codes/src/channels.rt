//! The channels that a file starts.

ghost use Rattle.std.specs.Prelude.{◌≡◌, IfOk, map};
ghost use Rattle.projection.specs.Projects.{started_services, channel_from, names_of};

use chor_base::{List, Memory, NameId};
use chor_tree::{File, Named, Service};
use endpoint_code::Channel;
use service_codes::{Started, all_starts, is_started};
use std::alloc::Global;

/// The channels that a start in the file names, in the order in which the file declares them.
pub fn channels(alloc: Global, file: &File) -> Result<List<Channel>, Memory>
    ensures { IfOk result (λ list. list ≡ map channel_from (started_services file.now)) }
{
    let starts = all_starts(alloc, file)?;
    let started = Started {
        file,
        starts: starts.as_slice(),
    };
    let mut channels = List::new(alloc);
    for service in file.services.as_slice() {
        if is_started(&started, service.name.name) {
            channels.push(channel(alloc, service)?)?;
        }
    }
    Ok(channels)
}

fn channel(alloc: Global, service: &Service) -> Result<Channel, Memory>
    ensures { IfOk result (λ channel. channel ≡ channel_from service.now) }
{
    Ok(Channel {
        name: service.name.name,
        active: names_of(alloc, service.active.as_slice())?,
        serve: names_of(alloc, service.serve.as_slice())?,
    })
}

/// Names without their places.
pub fn names_of(alloc: Global, written: &[Named]) -> Result<List<NameId>, Memory>
    ensures { IfOk result (λ list. list ≡ names_of written.now) }
{
    let mut names = List::new(alloc);
    for name in written {
        names.push(name.name)?;
    }
    Ok(names)
}
