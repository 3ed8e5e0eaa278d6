//! Endpoint files as they are read.

ghost use Rattle.endpoint_reader.specs.Units.{AreInside};

use crate::input::Named;
use crate::lines::{LineId, Lines};
use crate::lists::Signature;
use crate::roles::Roles;
use chor_base::List;

/// A channel and its roles.
#[derive(Drop)]
pub struct Channel {
    pub name: Named,
    pub roles: Roles,
}

/// A procedure for one of its parameters, and the line with which its body begins.
#[derive(Drop)]
pub struct Procedure {
    pub signature: Signature,
    pub body: LineId,
}

/// What the starts of a channel make for one of its service roles.
#[derive(Clone, Copy, PartialEq, Eq)]
pub struct Service {
    pub channel: Named,
    pub role: Named,
    pub body: LineId,
}

/// A process that exists from the beginning.
#[derive(Clone, Copy, PartialEq, Eq)]
pub struct Process {
    pub name: Named,
    pub body: LineId,
}

/// The units of a file, by their kinds, each in the order in which they are written, and the lines
/// of their bodies.
pub struct Written {
    pub lines: Lines,
    pub channels: List<Channel>,
    pub procedures: List<Procedure>,
    pub services: List<Service>,
    pub processes: List<Process>,
    ghost inside: { AreInside lines.items procedures services processes },
}

impl Drop for Written {
    fn drop(self) {
        let Written {
            lines: _,
            channels: _,
            procedures: _,
            services: _,
            processes: _,
        } = self;
    }
}
