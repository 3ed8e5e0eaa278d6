//! The office.

ghost use Rattle.std.specs.Prelude.{◌≡◌, [], false, IfOk, length};
ghost use Rattle.std.proofs.Math.ListN.{replicate};
ghost use Rattle.chor_host.specs.Functions.{hosts_in};
ghost use Rattle.chor_host.specs.Tables.{functions_of};
ghost use Rattle.endpoint_code.specs.Faults.{IsFaultless};
ghost use Rattle.post_office.specs.Views.{idle};
ghost use Rattle.post_office.specs.Kept.{IsKept};

mod board;
mod mail;
mod standing;
mod starts;
mod stops;

use crate::desk::Desk;
use crate::hosts::known_hosts;
use crate::ledger::Ledger;
use chor_base::{Entry, Meaning, Memory, NameId};
use chor_host::HostTable;
use endpoint_code::Endpoints;
use std::alloc::Global;
use std::marker::Model;

/// What the processes of a network share: the queues, the counters and the events so far; and what
/// was posted of each process. The events are a run of the network's origin, the queues and
/// counters are those after it, and what was posted is true there.
pub struct Office<'a> {
    endpoints: &'a Endpoints,
    // What the host functions may answer, by the numbers of their names.
    hosts: Vec<(NameId, Meaning)>,
    ledger: Ledger,
    desks: Vec<Desk>,
}

impl Drop for Office<'_> {
    fn drop(self) {
        let Office {
            endpoints: _,
            hosts: _,
            ledger: _,
            desks: _,
        } = self;
    }
}

impl<'a> Model for Office<'a> {
    ghost use Rattle.post_office.specs.Views.{OfficeView, office_of};
    ghost use Rattle.post_office.specs.Kept.{IsKept};

    ghost Value = { OfficeView };

    ghost use Rattle.endpoint_code.specs.contracts.endpoints.Endpoints as whole;
    ghost use Rattle.std.specs.Coded.{codes};

    ghost coded = { Prim.hlevel (codes, whole.the_row.coded) };

    ghost view = { λ a. office_of a.endpoints.now a.hosts.items a.ledger a.desks.items };

    ghost invariant = { λ a. IsKept (office_of a.endpoints.now a.hosts.items a.ledger a.desks.items) };
}

impl<'a> Office<'a> {
    /// Empty queues, no event yet, and nothing is posted.
    pub fn new(
        alloc: Global,
        endpoints: &'a Endpoints,
        hosts: &HostTable,
        capacity: Option<u32>,
    ) -> Result<Office<'a>, Memory>
        requires { IsFaultless endpoints.now }
        ensures endpoints { IfOk result (λ office. office.endpoints ≡ endpoints.now) }
        ensures hosts { IfOk result (λ office. office.hosts ≡ hosts_in endpoints.now.names (functions_of hosts.now)) }
        ensures capacity { IfOk result (λ office. office.capacity ≡ capacity) }
        ensures history { IfOk result (λ office. office.history ≡ []) }
        ensures queues { IfOk result (λ office. office.queues.lanes ≡ []) }
        ensures sid { IfOk result (λ office. office.sid ≡ 0) }
        ensures desks { IfOk result (λ office. office.desks ≡ replicate (length endpoints.now.processes) idle) }
        ensures stopped { IfOk result (λ office. office.stopped ≡ false) }
    {
        let hosts = known_hosts(alloc, &endpoints.names, hosts)?;
        let processes = endpoints.processes.count();
        let desks = vec![in alloc; Desk::idle(); processes as usize]?;
        Ok(Office {
            endpoints,
            hosts,
            ledger: Ledger::new(alloc, capacity),
            desks,
        })
    }

    /// The events so far.
    pub fn history(&self) -> &[Entry]
        ensures history { result.now ≡ self.now.history }
        ensures kept { IsKept self.now }
    {
        self.ledger.history.as_slice()
    }
}
