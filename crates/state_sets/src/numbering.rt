//! The numbers of sets of states.

ghost use Rattle.std.specs.Prelude.{◌≡◌, ◌<◌, ℕ, [], IfOk, OnOk, length};
ghost use Rattle.chor_base.specs.Words.{AllDistinct};
ghost use Rattle.global_types.specs.Moves.{IsIn};
ghost use Rattle.state_sets.specs.declared.graph.Edge.{Edge};
ghost use Rattle.state_sets.specs.Sets.{Has, IsSetFor};
ghost use Rattle.state_sets.specs.Numbering.{AreSingles, IsNumberOf, leads_to};

use crate::graph::{Edge, own_row};
use crate::marks::{has, no_marks, put};
use chor_base::{Memory, Texts};
use std::alloc::Global;

/// The sets that are found, whose numbers are their places, and for each state the number of the set
/// of this state alone, once it has one.
pub struct Numbering {
    pub sets: Texts,
    pub singles: Vec<Option<u32>>,
}

impl Drop for Numbering {
    fn drop(self) {
        let Numbering {
            sets: _,
            singles: _,
        } = self;
    }
}

// No sets, for so many states.
pub fn no_sets(alloc: Global, count: usize) -> Result<Numbering, Memory>
    ensures sets { IfOk result (λ numbering. numbering.sets ≡ []) }
    ensures singles { IfOk result (λ numbering. AreSingles count numbering.sets numbering.singles.items) }
{
    let mut singles = Vec::new(alloc);
    for _ in 0..count {
        singles.push(None)?;
    }
    let sets = Texts::new(alloc);
    Ok(Numbering { sets, singles })
}

// The number of the set of all states to which these exchanges, one of which begins in one of the
// states, lead from the states.
pub fn number_after(
    alloc: Global,
    still: &[u8],
    edges: &[Edge],
    numbering: &mut Numbering,
) -> Result<u32, Memory>
    requires inside { (e : Edge) → IsIn e edges.now → e.to < length still.now }
    requires allowed { (e : Edge) × IsIn e edges.now × Has still.now e.from }
    requires distinct { AllDistinct numbering.old.sets }
    requires singles { AreSingles (length still.now) numbering.old.sets numbering.old.singles.items }
    ensures number { IfOk result (λ number. IsNumberOf (length still.now) (leads_to still.now edges.now) numbering.old.sets numbering.new.sets number) }
    ensures distinct { AllDistinct numbering.new.sets }
    ensures singles { OnOk result (AreSingles (length still.now) numbering.new.sets numbering.new.singles.items) }
{
    if edges.len() == 1 {
        return number_alone(alloc, still.len(), edges[0].to as usize, numbering);
    }
    let after = targets(alloc, still, edges)?;
    let number = numbering.sets.intern(after.as_slice())?;
    Ok(number)
}

// The number of the set of one state alone.
pub fn number_alone(
    alloc: Global,
    count: usize,
    state: usize,
    numbering: &mut Numbering,
) -> Result<u32, Memory>
    requires inside { state < count }
    requires distinct { AllDistinct numbering.old.sets }
    requires singles { AreSingles count numbering.old.sets numbering.old.singles.items }
    ensures number { IfOk result (λ number. IsNumberOf count (λ j. state ≡ j) numbering.old.sets numbering.new.sets number) }
    ensures distinct { AllDistinct numbering.new.sets }
    ensures singles { OnOk result (AreSingles count numbering.new.sets numbering.new.singles.items) }
{
    if let Some(number) = numbering.singles[state] {
        return Ok(number);
    }
    let alone = own_row(alloc, count, state)?;
    let number = numbering.sets.intern(alone.as_slice())?;
    numbering.singles[state] = Some(number);
    Ok(number)
}

// The states to which these exchanges lead from the states.
fn targets(alloc: Global, still: &[u8], edges: &[Edge]) -> Result<Vec<u8>, Memory>
    requires { (e : Edge) → IsIn e edges.now → e.to < length still.now }
    ensures { IfOk result (λ v. IsSetFor (length still.now) (leads_to still.now edges.now) v.items) }
{
    let mut after = no_marks(alloc, still.len())?;
    for edge in edges {
        if has(still, edge.from as usize) {
            put(&mut after, edge.to as usize);
        }
    }
    Ok(after)
}
