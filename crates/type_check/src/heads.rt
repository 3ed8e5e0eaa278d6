//! The types of the heads of procedures.

ghost use Rattle.std.specs.Prelude.{◌≡◌, map, IfOk};
ghost use Rattle.delegation.specs.Checks.{all_differ};
ghost use Rattle.chor_base.specs.Faults.{first_of_all};
ghost use Rattle.typing_rules.specs.TypeFaults.{holder_fault, head_faults};

use chor_base::{Fault, Memory, Rule, earlier, fault_if};
use chor_tree::{Named, Proc, SessionParam};
use delegation::all_differ;
use std::alloc::Global;

// The first fault of the head of a procedure.
pub fn first_in_head(alloc: Global, procedure: &Proc) -> Result<Option<Fault>, Memory>
    ensures { IfOk result (λ o. o ≡ first_of_all (head_faults procedure.now)) }
{
    let mut first = None;
    for session in procedure.sessions.as_slice() {
        let found = twice_holding(alloc, session)?;
        first = earlier(first, found);
    }
    Ok(first)
}

// A session parameter that lists one process twice.
fn twice_holding(alloc: Global, session: &SessionParam) -> Result<Option<Fault>, Memory>
    ensures { IfOk result (λ o. o ≡ first_of_all (holder_fault session.now)) }
{
    let differ = holders_differ(alloc, session.holders.as_slice())?;
    Ok(fault_if(!differ, Rule::T9, session.name.place))
}

// Whether no process holds two of these roles.
fn holders_differ(alloc: Global, holders: &[(Named, Named)]) -> Result<bool, Memory>
    ensures { IfOk result (λ b. b ≡ all_differ (map (λ h. h.1.name) holders.now)) }
{
    let mut processes = Vec::new(alloc);
    for holder in holders {
        processes.push(holder.1.name)?;
    }
    Ok(all_differ(processes.as_slice()))
}
