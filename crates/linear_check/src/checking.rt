//! The check of linear files.

ghost use Rattle.std.specs.Prelude.{◌≡◌, ◌≤◌, length, None, IfOk, OnOk, IfErr};
ghost use Rattle.chor_base.specs.Faults.{IsFirst, IsDenial};
ghost use Rattle.linearity.specs.OrderFaults.{IsOrderFault, IsLinearFile};
ghost use Rattle.linear_check.specs.Greatest.{IsOrderFaultOf, HaveGreatest};
ghost use Rattle.linear_check.specs.Several.{several};

use crate::channels::Channels;
use crate::group::Group;
use chor_base::{Denied, Fault, List, Memory, NameId, earlier};
use chor_tree::{File, Service};
use std::alloc::Global;

/// Checks that each start of a channel with two or more active roles is by processes that have
/// heard of the start before it. Otherwise the processes of two starts could be mixed up.
///
/// The first start of which an active process need not have heard of the start before is refused
/// by U2.
pub fn check_linear(alloc: Global, file: &File) -> Result<(), Denied>
    ensures ok { OnOk result (IsLinearFile file.now) }
    ensures refused { IfErr result (IsDenial (IsOrderFault file.now)) }
{
    match first_unordered(alloc, file)? {
        None => Ok(()),
        Some(fault) => Err(fault.denied()),
    }
}

/// The first start of a file that isn't ordered after an earlier one of its channel.
pub fn first_unordered(alloc: Global, file: &File) -> Result<Option<Fault>, Memory>
    ensures first { IfOk result (IsFirst (IsOrderFault file.now)) }
    ensures linear { IfOk result (λ first. first ≡ None → IsLinearFile file.now) }
{
    let channels = channels_of_several(alloc, file.services.as_slice())?;
    first_in_groups(alloc, file, channels.as_slice())
}

// The channels with two or more active roles.
fn channels_of_several(alloc: Global, services: &[Service]) -> Result<List<NameId>, Memory>
    ensures { IfOk result (λ list. list ≡ several services.now) }
{
    let mut list = List::new(alloc);
    for service in services {
        if service.active.len() > 1 {
            list.push(service.name.name)?;
        }
    }
    Ok(list)
}

// The first unordered start of these channels, 128 of them at a time.
fn first_in_groups(alloc: Global, file: &File, channels: &[NameId]) -> Result<Option<Fault>, Memory>
    ensures first { IfOk result (IsFirst (IsOrderFaultOf file.now channels.now)) }
    ensures greatest { OnOk result (HaveGreatest file.now channels.now) }
{
    if channels.len() <= 128 {
        return first_in_group(alloc, file, channels);
    }
    let (front, back) = channels.split_at(128);
    let here = first_in_group(alloc, file, front)?;
    let there = first_in_groups(alloc, file, back)?;
    Ok(earlier(here, there))
}

// The first unordered start of up to 128 channels.
fn first_in_group(alloc: Global, file: &File, channels: &[NameId]) -> Result<Option<Fault>, Memory>
    requires { length channels.now ≤ 128 }
    ensures first { IfOk result (IsFirst (IsOrderFaultOf file.now channels.now)) }
    ensures greatest { OnOk result (HaveGreatest file.now channels.now) }
{
    let group = Group {
        file,
        channels: Channels::new(channels),
    };
    let sets = group.greatest_sets(alloc)?;
    group.first_under(alloc, &sets)
}
