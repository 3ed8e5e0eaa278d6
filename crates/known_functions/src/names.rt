//! The names of host functions.

ghost use Rattle.std.specs.Prelude.{◌≡◌, IfOk};
ghost use Rattle.chor_host.specs.Functions.{names_of};
ghost use Rattle.chor_host.specs.Tables.{functions_of};

use chor_base::{List, Memory, Word};
use chor_host::HostTable;
use std::alloc::Global;

/// The names of the functions of a table, in their order.
pub fn host_names(alloc: Global, hosts: &HostTable) -> Result<List<Word>, Memory>
    ensures { IfOk result (λ names. names ≡ names_of (functions_of hosts.now)) }
{
    let mut names = List::new(alloc);
    for place in 0..hosts.len() {
        if place >= u32::MAX as usize {
            return Err(Memory);
        }
        let host = hosts.at(place as u32);
        let name = host.name.copy(alloc)?;
        names.push(name)?;
    }
    Ok(names)
}
