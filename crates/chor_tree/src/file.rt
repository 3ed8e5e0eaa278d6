//! A source file.

ghost use Rattle.chor_tree.specs.Kept.{Keeps};

use crate::header::Header;
use crate::protocol::Protocol;
use crate::tree::{NodeId, Tree};
use chor_base::{List, NameId, Names, Place, Sort, Texts};

/// A name and where it stands in the file.
#[derive(Clone, Copy, PartialEq, Eq)]
pub struct Named {
    pub name: NameId,
    pub place: Place,
}

/// A whole source: its header, its tables of names and texts, what it declares, and its choreography.
///
/// Its version is 1 or 2, and only version 2 has a capacity, from 1 to 1,000,000. Its numbers are in its tables, it has an item in each list for which the grammar asks one, and a
/// node begins one body or follows one other node, and no more.
pub struct File {
    pub header: Header,
    pub names: Names,
    pub texts: Texts,
    pub protocols: List<Protocol>,
    pub services: List<Service>,
    pub procs: List<Proc>,
    /// The processes of `main`, in their declared order.
    pub processes: List<Named>,
    /// The nodes of all bodies.
    pub tree: Tree,
    /// Where the body of `main` begins.
    pub body: NodeId,
    ghost kept: { Keeps header names texts protocols services procs processes tree.nodes body },
}

impl Drop for File {
    fn drop(self) {
        let File {
            header: _,
            names: _,
            texts: _,
            protocols: _,
            services: _,
            procs: _,
            processes: _,
            tree: _,
            body: _,
        } = self;
    }
}

/// A public channel: `service name : protocol (active | serve);`.
#[derive(Drop)]
pub struct Service {
    pub name: Named,
    pub protocol: Named,
    /// The roles that processes take which exist before the start.
    pub active: List<Named>,
    /// The roles for which the start makes new processes.
    pub serve: List<Named>,
}

/// A procedure with its process parameters and its session parameters.
pub struct Proc {
    pub name: Named,
    pub params: List<ProcParam>,
    pub sessions: List<SessionParam>,
    pub body: NodeId,
}

impl Drop for Proc {
    fn drop(self) {
        let Proc {
            name: _,
            params: _,
            sessions: _,
            body: _,
        } = self;
    }
}

/// A process parameter, and the variables that it must have set.
#[derive(Drop)]
pub struct ProcParam {
    pub name: Named,
    pub vars: List<(Named, Sort)>,
}

/// A session parameter: its protocol, the state in which it is passed, and the process parameter
/// that holds each listed role.
#[derive(Drop)]
pub struct SessionParam {
    pub name: Named,
    pub protocol: Named,
    pub state: Named,
    /// Pairs of a role and its holder.
    pub holders: List<(Named, Named)>,
}
