//! Sets of states: a byte for each state, which is 1 where the state is in the set and else 0.

ghost use Rattle.std.specs.Prelude.{◌≡◌, ◌==◌, ◌<◌, ◌≤◌, ℕ, IfOk, IsTrue, ◌↔◌, MatchBool, length, slice_index_or, slice_set, if◌then◌else◌};
ghost use Rattle.state_sets.specs.Sets.{Has, HasTwo, row_at, IsSetFor};

use chor_base::Memory;
use std::alloc::Global;

/// The empty set of so many states.
#[tactic(auto, using(crate::proofs::Sets::set_none))]
pub fn no_marks(alloc: Global, count: usize) -> Result<Vec<u8>, Memory>
    ensures { IfOk result (λ v. IsSetFor count (λ i. ⊥) v.items) }
{
    Ok(vec![in alloc; 0; count]?)
}

/// Whether a state is in a set.
pub fn has(marks: &[u8], state: usize) -> bool
    ensures { result ≡ (slice_index_or marks.now state 0 == 1) }
{
    match marks.get(state) {
        Some(mark) => *mark == 1,
        None => false,
    }
}

/// A state comes into a set.
pub fn put(marks: &mut Vec<u8>, state: usize)
    ensures { marks.new.items ≡ slice_set marks.old.items state 1 }
{
    if state < marks.len() {
        marks[state] = 1;
    }
}

// All states of another set come into a set.
pub fn put_all(marks: &mut Vec<u8>, others: &[u8])
    ensures len { length marks.new.items ≡ length marks.old.items }
    ensures bytes { (i : ℕ) → i < length marks.old.items → slice_index_or marks.new.items i 0 ≡ (if slice_index_or others.now i 0 == 1 then 1 else slice_index_or marks.old.items i 0) }
{
    for state in 0..marks.len() {
        if has(others, state) {
            marks[state] = 1;
        }
    }
}

/// Whether a state is in both sets.
pub fn meets(marks: &[u8], others: &[u8]) -> bool
    ensures { MatchBool result ((i : ℕ) × Has marks.now i × Has others.now i) ((i : ℕ) → Has marks.now i → Has others.now i → ⊥) }
{
    for state in 0..marks.len() {
        if has(marks, state) && has(others, state) {
            return true;
        }
    }
    false
}

/// Whether two states are in a set.
pub fn has_two(marks: &[u8]) -> bool
    ensures { MatchBool result (HasTwo marks.now) (HasTwo marks.now → ⊥) }
{
    for state in 0..marks.len() {
        if has(marks, state) {
            return has_after(marks, state + 1);
        }
    }
    false
}

// Whether this state or a later one is in a set.
fn has_after(marks: &[u8], first: usize) -> bool
    ensures { MatchBool result ((i : ℕ) × (first ≤ i) × Has marks.now i) ((i : ℕ) → first ≤ i → Has marks.now i → ⊥) }
{
    for state in first..marks.len() {
        if has(marks, state) {
            return true;
        }
    }
    false
}

// The states that are in a row of one of these states.
pub fn union(alloc: Global, marks: &[u8], rows: &[Vec<u8>]) -> Result<Vec<u8>, Memory>
    requires { (k i : ℕ) → Has (row_at rows.now k) i → i < length marks.now }
    ensures { IfOk result (λ v. IsSetFor (length marks.now) (λ i. (k : ℕ) × Has marks.now k × Has (row_at rows.now k) i) v.items) }
{
    let mut all = no_marks(alloc, marks.len())?;
    for (state, row) in rows.iter().enumerate() {
        if has(marks, state) {
            put_all(&mut all, row.as_slice());
        }
    }
    Ok(all)
}
