//! The sets of states that a role can't tell apart, each once, in the order in which they are found.

ghost use Rattle.std.specs.Prelude.{◌≡◌, ◌+◌, ◌<◌, ◌≤◌, ◌⊎◌, ℕ, List, IfOk, OnOk, MatchBool, MatchOption, Some, length, slice_get};
ghost use Rattle.std.specs.List.Sorted.{IsNonDecreasing};
ghost use Rattle.chor_base.specs.declared.names.NameId.{NameId};
ghost use Rattle.chor_base.specs.Words.{AllDistinct};
ghost use Rattle.chor_tree.specs.declared.protocol.State.{State};
ghost use Rattle.global_types.specs.Moves.{IsIn};
ghost use Rattle.state_sets.specs.Sets.{Has, row_at};
ghost use Rattle.state_sets.specs.Graph.{AreRowsFor, AreInside};
ghost use Rattle.state_sets.specs.Table.{Silent, AreActs, HasGrown, AreArms, nexts, Counts, group_words, arm_words, HasAscendingArms, AreTooMany, IsWhole};
ghost use Rattle.state_sets.specs.Ascending.{Ascend};
ghost use Rattle.state_sets.specs.Numbering.{AreSingles};
ghost use Rattle.state_sets.specs.Starts.{HaveAllowed};

use crate::act::Act;
use crate::graph::{Edge, Group};
use crate::marks::{has, union};
use crate::numbering::{Numbering, no_sets, number_after, number_alone};
use crate::starts::{candidates, starts};
use chor_base::Memory;
use std::alloc::Global;

/// An act, and the number of the set after it.
#[derive(Clone, Copy)]
pub struct Arm {
    pub act: Act,
    pub next: u32,
}

/// What follows a set: the states that silent exchanges lead to, and the acts that they allow.
pub struct Row {
    pub still: Vec<u8>,
    pub arms: Vec<Arm>,
}

impl Drop for Row {
    fn drop(self) {
        let Row { still: _, arms: _ } = self;
    }
}

// The rows of all sets, of which the first is that of the first state alone. There is none where
// there are more sets than this many.
pub fn rows(
    alloc: Global,
    groups: &[Group],
    reach: &[Vec<u8>],
    most: usize,
) -> Result<Option<Vec<Row>>, Memory>
    requires some { 0 < most }
    requires first { 0 < length reach.now }
    requires reach { (k i : ℕ) → Has (row_at reach.now k) i → i < length reach.now }
    requires inside { AreInside (length reach.now) groups.now }
    ensures ascend { IfOk result (λ o. MatchOption o (Unit {0}) (λ v. (names : List (List ℕ)) → Ascend (group_words names groups.now) → HasAscendingArms names v.items)) }
    ensures table { IfOk result (λ o. (ss : List State) (r : NameId) → AreRowsFor (length reach.now) (Silent ss r) reach.now → AreActs ss r groups.now → MatchOption o (AreTooMany ss r (length reach.now) most) (λ v. IsWhole ss r (length reach.now) v.items)) }
    ensures few { IfOk result (λ o. MatchOption o (Unit {0}) (λ v. length v.items ≤ most)) }
{
    let mut numbering = no_sets(alloc, reach.len())?;
    number_alone(alloc, reach.len(), 0, &mut numbering)?;
    let starts = starts(alloc, reach.len(), groups)?;
    let mut rows = Vec::new(alloc);
    while rows.len() < numbering.sets.len() {
        let still = union(alloc, numbering.sets.at(rows.len() as u32), reach)?;
        let numbers = candidates(alloc, still.as_slice(), starts.as_slice(), groups)?;
        match arms(
            alloc,
            groups,
            numbers.as_slice(),
            still.as_slice(),
            most,
            &mut numbering,
        )? {
            Some(arms) => rows.push(Row { still, arms })?,
            None => return Ok(None),
        }
    }
    Ok(Some(rows))
}

// The acts that these states allow, which are among those of the groups with these numbers, each with
// the set after it. There are none where there are then more sets than this many.
fn arms(
    alloc: Global,
    groups: &[Group],
    numbers: &[usize],
    still: &[u8],
    most: usize,
    numbering: &mut Numbering,
) -> Result<Option<Vec<Arm>>, Memory>
    requires inside { AreInside (length still.now) groups.now }
    requires few { length numbering.old.sets ≤ most }
    requires distinct { AllDistinct numbering.old.sets }
    requires singles { AreSingles (length still.now) numbering.old.sets numbering.old.singles.items }
    requires rising { IsNonDecreasing numbers.now }
    requires allowed { HaveAllowed groups.now still.now numbers.now }
    ensures distinct { AllDistinct numbering.new.sets }
    ensures singles { OnOk result (AreSingles (length still.now) numbering.new.sets numbering.new.singles.items) }
    ensures longer { OnOk result (length numbering.old.sets ≤ length numbering.new.sets) }
    ensures sizes { OnOk result ((k : ℕ) (v : List ℕ) → slice_get numbering.new.sets k ≡ Some v → (slice_get numbering.old.sets k ≡ Some v) ⊎ (length v ≡ length still.now)) }
    ensures count { IfOk result (λ o. MatchOption o (length numbering.new.sets ≡ most + 1) (λ v. length numbering.new.sets ≤ most)) }
    ensures grown { OnOk result ((ss : List State) (r : NameId) → AreActs ss r groups.now → HasGrown ss r (length still.now) still.now numbering.old.sets numbering.new.sets) }
    ensures numbered { IfOk result (λ o. MatchOption o (Unit {0}) (λ v. Counts (length numbering.old.sets) (nexts v.items) (length numbering.new.sets))) }
    ensures ascend { IfOk result (λ o. MatchOption o (Unit {0}) (λ v. (names : List (List ℕ)) → Ascend (group_words names groups.now) → Ascend (arm_words names v.items))) }
    ensures arms { IfOk result (λ o. (ss : List State) (r : NameId) → AreActs ss r groups.now → MatchOption o (Unit {0}) (λ v. AreArms ss r (length still.now) numbering.new.sets still.now v.items)) }
{
    let mut arms = Vec::new(alloc);
    let mut place = 0;
    for &number in numbers {
        if place <= number && number < groups.len() {
            place = number + 1;
            let group = &groups[number];
            if is_allowed(still, group.edges.as_slice()) {
                let next = number_after(alloc, still, group.edges.as_slice(), numbering)?;
                if numbering.sets.len() > most {
                    return Ok(None);
                }
                arms.push(Arm {
                    act: group.act,
                    next,
                })?;
            }
        }
    }
    Ok(Some(arms))
}

// Whether one of these exchanges leads from one of the states.
fn is_allowed(still: &[u8], edges: &[Edge]) -> bool
    ensures { MatchBool result ((e : Edge) × IsIn e edges.now × Has still.now e.from) ((e : Edge) → IsIn e edges.now → Has still.now e.from → ⊥) }
{
    for edge in edges {
        if has(still, edge.from as usize) {
            return true;
        }
    }
    false
}
