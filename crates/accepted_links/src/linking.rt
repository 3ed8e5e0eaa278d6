//! Linking the programs of an accepted source.

ghost use Rattle.std.specs.Prelude.{◌≡◌, IfOk, IfErr};
ghost use Rattle.endpoint_code.specs.AboveUnits.{AreUnitsAbove};
ghost use Rattle.endpoint_code.specs.Faults.{IsFaultlessWith};
ghost use Rattle.endpoint_link.specs.Judged.{IsLinkFault};
ghost use Rattle.endpoint_link.specs.Linked.{IsLinked};
ghost use Rattle.accepted_links.specs.Linked.{HasRunsOf};

use endpoint_code::Endpoints;
use endpoint_link::{LinkFault, link};
use simulation::Accepted;
use std::alloc::Global;

/// The same source, with the code of `given` in place of that of each unit of its programs which
/// `given` has too. The network of the linked programs has exactly the runs of the source's
/// choreography, under any capacity of its queues. On any refusal the source is dropped.
///
/// # Errors
///
/// `Refused` names the first given unit that can't be put in place of one of the source's programs, in
/// the order channels, procedures, services, processes: by K2 where they have no such unit, else by K1.
pub fn link_accepted(
    alloc: Global,
    accepted: Accepted,
    given: &Endpoints,
) -> Result<Accepted, LinkFault>
    requires { IsFaultlessWith accepted.typed.hosts given.now }
    ensures typed { IfOk result (λ linked. linked.typed ≡ accepted.typed) }
    ensures linked { IfOk result (λ linked. IsLinked accepted.endpoints given.now linked.endpoints) }
    ensures runs { IfOk result (λ linked. HasRunsOf accepted.typed.file linked.endpoints) }
    ensures refused { IfErr result (IsLinkFault accepted.endpoints given.now) }
{
    match linked_programs(alloc, &accepted, given) {
        Ok(programs) => Ok(accepted.linked(programs)),
        Err(fault) => {
            drop(accepted);
            Err(fault)
        }
    }
}

// The linked programs of the source.
fn linked_programs(
    alloc: Global,
    accepted: &Accepted,
    given: &Endpoints,
) -> Result<Endpoints, LinkFault>
    requires { IsFaultlessWith accepted.now.typed.hosts given.now }
    ensures above { IfOk result (AreUnitsAbove accepted.now.endpoints) }
    ensures faultless { IfOk result (IsFaultlessWith accepted.now.typed.hosts) }
    ensures linked { IfOk result (IsLinked accepted.now.endpoints given.now) }
    ensures runs { IfOk result (HasRunsOf accepted.now.typed.file) }
    ensures refused { IfErr result (IsLinkFault accepted.now.endpoints given.now) }
{
    accepted_files::linked_runs_are_runs();
    let base = accepted.endpoints();
    let programs = link(alloc, base, given)?;
    // that no name and no text stands twice
    let _names = programs.names.len();
    let _texts = programs.texts.len();
    Ok(programs)
}
