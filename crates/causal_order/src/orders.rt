//! Causes of events, and what happens before what by them.

ghost use Rattle.std.specs.Prelude.{ℕ, ◌≡◌, ◌<◌, ◌↔◌, true, IfOk, length, vec_len, Contains};
ghost use Rattle.std.specs.List.Sorted.{IsStrictlyIncreasing};
ghost use Rattle.causal_order.specs.Orders.{AreEarlier, IsAncestor, IsInPast, AreMarked, IsWhetherBefore, IsWhetherShared, IsPast, PastIsRun};

use crate::marking::{mark_all, marked};
use chor_base::{List, Memory};
use std::alloc::Global;

/// The causes of each event of a run, in the order of the run. Events have their places, counted from
/// 0, and each cause has a place before the event's own.
pub struct Order {
    pub causes: List<List<u64>>,
    ghost earlier: { AreEarlier causes },
}

impl Drop for Order {
    fn drop(self) {
        let Order { causes: _ } = self;
    }
}

impl Order {
    // Marks an event and all that happens before it.
    fn marks(&self, alloc: Global, event: u64) -> Result<Vec<bool>, Memory>
        requires { event < length self.now.causes }
        ensures len { IfOk result (λ marks. vec_len marks ≡ length self.now.causes) }
        ensures marked { IfOk result (λ marks. AreMarked self.now.causes event marks.items) }
    {
        let count = self.causes.len();
        let mut marks = vec![in alloc; false; count]?;
        marks[event as usize] = true;
        for back in 0..count {
            let next = count - 1 - back;
            if marks[next] {
                mark_all(&mut marks, self.causes.at(next).as_slice());
            }
        }
        Ok(marks)
    }

    /// Whether the first event happens before the second: for endpoint programs without a fault of names,
    /// whether it comes before it in every rearrangement of the run. No event happens before itself.
    ///
    /// # Errors
    /// Out of memory.
    pub fn before(&self, alloc: Global, first: u64, second: u64) -> Result<bool, Memory>
        requires first { first < length self.now.causes }
        requires second { second < length self.now.causes }
        ensures reached { IfOk result (λ answer. (answer ≡ true) ↔ IsAncestor self.now.causes first second) }
        ensures happens { IfOk result (λ answer. IsWhetherBefore self.now.causes first second answer) }
        ensures shared { IfOk result (λ answer. IsWhetherShared self.now.causes first second answer) }
    {
        if first >= second {
            return Ok(false);
        }
        let marks = self.marks(alloc, second)?;
        Ok(marks[first as usize])
    }

    /// The causal past of an event: the event and all that happens before it, in ascending order. For
    /// endpoint programs without a fault of names these events are a run by themselves.
    ///
    /// # Errors
    /// Out of memory.
    pub fn lead(&self, alloc: Global, event: u64) -> Result<List<u64>, Memory>
        requires { event < length self.now.causes }
        ensures ascends { IfOk result (λ past. IsStrictlyIncreasing past) }
        ensures holds { IfOk result (λ past. (i : ℕ) → Contains past i ↔ IsInPast self.now.causes event i) }
        ensures happens { IfOk result (λ past. IsPast self.now.causes event past) }
        ensures runs { IfOk result (λ past. PastIsRun self.now.causes event past) }
    {
        let marks = self.marks(alloc, event)?;
        marked(alloc, marks.as_slice())
    }
}
