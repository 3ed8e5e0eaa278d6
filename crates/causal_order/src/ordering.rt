//! The causes of all events of a run.

ghost use Rattle.std.specs.Prelude.{List as AnyList, IfOk};
ghost use Rattle.chor_base.specs.declared.event.Event.{Event as AnyEvent};
ghost use Rattle.causal_order.specs.Orders.{AreCauses, IsSomeRun, RespectingOrdersAreRuns};
ghost use Rattle.causal_order.specs.Scanned.{HasScanned};

use crate::adding::add;
use crate::causes::causes_of;
use crate::index::EventIndex;
use crate::orders::Order;
use crate::scan::Scan;
use chor_base::{Event, List, Memory};
use std::alloc::Global;

// A scan of no events.
fn empty(alloc: Global) -> Scan
    ensures { (h : AnyList AnyEvent) → HasScanned h 0 result }
{
    Scan {
        last: Vec::new(alloc),
        start: None,
        sends: EventIndex::new(alloc),
        receipts: EventIndex::new(alloc),
    }
}

/// Answers the causes of each event of a run of some endpoint programs, under a capacity of its queues
/// or under none. Each order of the events in which they come after their causes is a run of these
/// programs, with the same state after it, if they have no fault of names.
///
/// # Errors
/// Out of memory.
pub fn order(alloc: Global, events: &[Event], capacity: Option<u32>) -> Result<Order, Memory>
    requires { IsSomeRun capacity events.now }
    ensures causes { IfOk result (λ order. AreCauses events.now capacity order.causes) }
    ensures runs { IfOk result (λ order. RespectingOrdersAreRuns capacity events.now order.causes) }
{
    let mut scan = empty(alloc);
    let mut causes = List::new(alloc);
    for (place, event) in events.iter().enumerate() {
        causes.push(causes_of(alloc, &scan, event, capacity)?)?;
        add(&mut scan, event, place as u64)?;
    }
    Ok(Order { causes })
}
