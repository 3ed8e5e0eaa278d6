//! Marks on the events of a run.

ghost use Rattle.std.specs.Prelude.{◌≡◌, ◌<◌, All, IfOk, vec_len};
ghost use Rattle.causal_order.specs.Marking.{MarksMore, marked_from};

use chor_base::{List, Memory};
use std::alloc::Global;

/// Marks the events at these places too.
pub fn mark_all(marks: &mut Vec<bool>, places: &[u64])
    requires { All (λ i. i < vec_len marks.old) places.now }
    ensures len { vec_len marks.new ≡ vec_len marks.old }
    ensures marked { MarksMore marks.old.items places.now marks.new.items }
{
    for place in places {
        let place = *place as usize;
        marks[place] = true;
    }
}

/// The places that are marked, in ascending order.
pub fn marked(alloc: Global, marks: &[bool]) -> Result<List<u64>, Memory>
    ensures { IfOk result (λ list. list ≡ marked_from 0 marks.now) }
{
    let mut list = List::new(alloc);
    for (place, mark) in marks.iter().enumerate() {
        if *mark {
            list.push(place as u64)?;
        }
    }
    Ok(list)
}
