//! Parts of a network: its first processes, and whom the seed picks.

ghost use Rattle.std.specs.Prelude.{◌≡◌, ◌<◌, ◌+◌, ◌%◌, ◌^◌, length, map, IfOk};
ghost use Rattle.endpoint_code.specs.Network.{standing_all};
ghost use Rattle.session_starts.specs.Machines.{standing_of, AreCounted};

use chor_base::{List, Memory};
use endpoint_code::Process;
use endpoint_machine::Machine;
use std::alloc::Global;

// The processes at their bodies.
pub fn standing_all(alloc: Global, processes: &List<Process>) -> Result<Vec<Machine>, Memory>
    ensures machines { IfOk result (λ machines. map standing_of machines.items ≡ standing_all processes.now) }
    ensures counted { IfOk result (λ machines. AreCounted machines.items) }
    ensures few { length processes.now < 2 ^ 32 }
{
    let mut machines = Vec::with_capacity(alloc, processes.count() as usize)?;
    for process in processes.as_slice() {
        let number = machines.as_slice().len() as u32;
        let machine = Machine::new(alloc, number, process.body, None)?;
        machines.push(machine)?;
    }
    Ok(machines)
}

// The place of what the seed picks among so many after so many events.
pub fn place_of_pick(seed: u64, events: u64, count: u64) -> u64
    requires positive { 0 < count }
    requires small { seed < 2 ^ 33 }
    requires few { events < 2 ^ 63 }
    ensures place { result ≡ (seed + events) % count }
    ensures within { result < count }
{
    (seed + events) % count
}
