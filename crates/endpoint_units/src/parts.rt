//! What was read of a file.

ghost use Rattle.std.specs.Prelude.{◌≡◌, []};

use chor_base::List;
use endpoint_reader::{Channel, Lines, Procedure, Process, Service};
use std::alloc::Global;

/// The units that were read, by their kinds, and the lines of their bodies.
#[derive(Drop)]
pub struct Parts {
    pub lines: Lines,
    pub channels: List<Channel>,
    pub procedures: List<Procedure>,
    pub services: List<Service>,
    pub processes: List<Process>,
}

impl Parts {
    /// No units. It takes no memory.
    pub fn new(alloc: Global) -> Self
        ensures lines { result.lines.items ≡ [] }
        ensures channels { result.channels ≡ [] }
        ensures procedures { result.procedures ≡ [] }
        ensures services { result.services ≡ [] }
        ensures processes { result.processes ≡ [] }
    {
        Parts {
            lines: Lines::new(alloc),
            channels: List::new(alloc),
            procedures: List::new(alloc),
            services: List::new(alloc),
            processes: List::new(alloc),
        }
    }
}
