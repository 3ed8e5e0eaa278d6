//! In which states groups begin, so that what a set of states allows is found from its own states.

ghost use Rattle.std.specs.Prelude.{◌≡◌, ◌<◌, ℕ, IfOk, OnOk, length};
ghost use Rattle.std.specs.List.{range_with_len};
ghost use Rattle.std.specs.List.Sorted.{IsNonDecreasing};
ghost use Rattle.global_types.specs.Moves.{IsIn};
ghost use Rattle.state_sets.specs.declared.graph.Edge.{Edge};
ghost use Rattle.state_sets.specs.Graph.{AreInside};
ghost use Rattle.state_sets.specs.Sets.{Has, row_at};
ghost use Rattle.state_sets.specs.Starts.{AreStarts, HasMoreStarts, HaveAllowed};

use crate::graph::{Edge, Group};
use crate::marks::has;
use chor_base::Memory;
use std::alloc::Global;

// For each of so many states the numbers of the groups that begin in it.
pub fn starts(alloc: Global, count: usize, groups: &[Group]) -> Result<Vec<Vec<usize>>, Memory>
    requires { AreInside count groups.now }
    ensures { IfOk result (λ v. AreStarts groups.now v.items) }
{
    let mut starts = no_starts(alloc, count)?;
    for (number, group) in groups.iter().enumerate() {
        add_group(&mut starts, number, group.edges.as_slice())?;
    }
    Ok(starts)
}

// An empty list for each of so many states.
fn no_starts(alloc: Global, count: usize) -> Result<Vec<Vec<usize>>, Memory>
    ensures { IfOk result (λ v. length v.items ≡ count) }
{
    let mut starts = Vec::new(alloc);
    for _ in 0..count {
        starts.push(Vec::new(alloc))?;
    }
    Ok(starts)
}

// A group comes into the lists of the states from which these exchanges lead.
fn add_group(starts: &mut Vec<Vec<usize>>, number: usize, edges: &[Edge]) -> Result<(), Memory>
    requires { (e : Edge) → IsIn e edges.now → e.from < length starts.old.items }
    ensures more { OnOk result (HasMoreStarts starts.old.items starts.new.items) }
    ensures added { OnOk result ((e : Edge) → IsIn e edges.now → IsIn number (row_at starts.new.items e.from)) }
{
    for edge in edges {
        add_start(starts, edge.from as usize, number)?;
    }
    Ok(())
}

fn add_start(starts: &mut Vec<Vec<usize>>, state: usize, number: usize) -> Result<(), Memory>
    requires { state < length starts.old.items }
    ensures more { OnOk result (HasMoreStarts starts.old.items starts.new.items) }
    ensures added { OnOk result (IsIn number (row_at starts.new.items state)) }
{
    let list = &mut starts[state];
    list.push(number)?;
    Ok(())
}

// The numbers of the groups that begin in some of the states, in ascending order. Where they are
// not few, all groups are taken, since those that the states don't allow are left out later.
pub fn candidates(
    alloc: Global,
    still: &[u8],
    starts: &[Vec<usize>],
    groups: &[Group],
) -> Result<Vec<usize>, Memory>
    requires { AreStarts groups.now starts.now }
    ensures rising { IfOk result (λ v. IsNonDecreasing v.items) }
    ensures allowed { IfOk result (λ v. HaveAllowed groups.now still.now v.items) }
{
    let mut numbers = from_states(alloc, still, starts)?;
    if numbers.len() > groups.len() / FEW {
        let every = all(alloc, groups.len())?;
        return Ok(every);
    }
    numbers.sort_unstable();
    Ok(numbers)
}

// Up to one in so many groups are few, and it takes less time to sort them than to go through all.
const FEW: usize = 16;

// The numbers of the groups that begin in some of the states.
fn from_states(alloc: Global, still: &[u8], starts: &[Vec<usize>]) -> Result<Vec<usize>, Memory>
    ensures { IfOk result (λ v. (i k : ℕ) → Has still.now i → IsIn k (row_at starts.now i) → IsIn k v.items) }
{
    let mut numbers = Vec::new(alloc);
    for (state, list) in starts.iter().enumerate() {
        if has(still, state) {
            numbers.extend_from_slice(list.as_slice())?;
        }
    }
    Ok(numbers)
}

// All numbers below a count.
fn all(alloc: Global, count: usize) -> Result<Vec<usize>, Memory>
    ensures { IfOk result (λ v. v.items ≡ range_with_len 0 count) }
{
    let mut numbers = Vec::new(alloc);
    for number in 0..count {
        numbers.push(number)?;
    }
    Ok(numbers)
}
