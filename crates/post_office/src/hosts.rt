//! The host functions that endpoint programs can call.

ghost use Rattle.std.specs.Prelude.{◌≡◌, IfOk};
ghost use Rattle.chor_host.specs.Functions.{hosts_in};
ghost use Rattle.chor_host.specs.Tables.{functions_of};

use chor_base::{Meaning, Memory, NameId, Names};
use chor_host::HostTable;
use std::alloc::Global;

/// What the functions of a table may answer, by the numbers of their names. A program can't call a
/// function whose name isn't there.
pub fn known_hosts(
    alloc: Global,
    names: &Names,
    hosts: &HostTable,
) -> Result<Vec<(NameId, Meaning)>, Memory>
    ensures { IfOk result (λ known. known.items ≡ hosts_in names.now (functions_of hosts.now)) }
{
    let mut known = Vec::with_capacity(alloc, hosts.len().min(names.len()))?;
    for place in 0..hosts.len() {
        if place >= u32::MAX as usize {
            return Err(Memory);
        }
        let host = hosts.at(place as u32);
        if let Some(name) = names.find(host.name.as_slice()) {
            known.push((name, host.meaning))?;
        }
    }
    Ok(known)
}
