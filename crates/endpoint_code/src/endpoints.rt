//! Whole endpoint programs.

ghost use Rattle.endpoint_code.specs.Bodies.{AreInside};
ghost use Rattle.endpoint_code.specs.Kept.{AreNumbered};

use crate::code::{Code, CodeId};
use chor_base::{List, NameId, Names, Texts};

/// A channel with its active roles and its service roles.
#[derive(Drop)]
pub struct Channel {
    pub name: NameId,
    pub active: List<NameId>,
    pub serve: List<NameId>,
}

/// The code of a procedure for one of its process parameters.
#[derive(Drop)]
pub struct Procedure {
    pub name: NameId,
    pub param: NameId,
    pub sessions: List<NameId>,
    pub body: CodeId,
}

/// The code of the processes that a channel's starts make for one service role. There the session
/// has the channel's name.
#[derive(Clone, Copy, PartialEq, Eq)]
pub struct ServiceCode {
    pub channel: NameId,
    pub role: NameId,
    pub body: CodeId,
}

/// A process that exists from the beginning.
#[derive(Clone, Copy, PartialEq, Eq)]
pub struct Process {
    pub name: NameId,
    pub body: CodeId,
}

/// Programs for all endpoints, with their tables of names and texts.
pub struct Endpoints {
    pub names: Names,
    pub texts: Texts,
    pub channels: List<Channel>,
    pub procedures: List<Procedure>,
    pub services: List<ServiceCode>,
    /// Their numbers in a run are their places here.
    pub processes: List<Process>,
    pub code: Code,
    ghost inside: { AreInside code.nodes procedures services processes },
    ghost numbered: { AreNumbered names texts channels procedures services processes code.nodes },
}

impl Drop for Endpoints {
    fn drop(self) {
        let Endpoints {
            names: _,
            texts: _,
            channels: _,
            procedures: _,
            services: _,
            processes: _,
            code: _,
        } = self;
    }
}
