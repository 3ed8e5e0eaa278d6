//! Steps in which a role would have to act differently.

ghost use Rattle.std.specs.Prelude.{◌≡◌, ℕ, IfOk, IsTrue, ◌↔◌, MatchBool, Some, length, slice_get};
ghost use Rattle.chor_base.specs.declared.names.NameId.{NameId};
ghost use Rattle.chor_tree.specs.declared.protocol.State.{State};
ghost use Rattle.chor_tree.specs.declared.protocol.ProtoStep.TheVariants as end_step;
ghost use Rattle.global_types.specs.Moves.{IsIn};
ghost use Rattle.global_types.specs.Views.{NamesAt, labels_of, SameLabels, IsAlike, IsApart};
ghost use Rattle.state_sets.specs.Sets.{Has, row_at, IsSetFor};
ghost use Rattle.state_sets.specs.Graph.{AreRowsFor};
ghost use Rattle.state_sets.specs.Table.{ApartAt, IsTorn};

use chor_base::{Memory, NameId};
use chor_tree::{Named, ProtoArm, ProtoStep, State};
use global_types::is_named;
use state_sets::{has, meets, no_marks, put, same_payload};
use std::alloc::Global;

// For each state those that it must not be confused with.
pub fn apart(alloc: Global, states: &[State], role: NameId) -> Result<Vec<Vec<u8>>, Memory>
    ensures { IfOk result (λ v. AreRowsFor (length states.now) (ApartAt states.now role) v.items) }
{
    let mut rows = Vec::new(alloc);
    for state in states {
        rows.push(apart_row(alloc, states, role, &state.step)?)?;
    }
    Ok(rows)
}

// The states whose steps a step is apart from.
fn apart_row(
    alloc: Global,
    states: &[State],
    role: NameId,
    step: &ProtoStep,
) -> Result<Vec<u8>, Memory>
    ensures { IfOk result (λ v. IsSetFor (length states.now) (λ j. (t : State) × (slice_get states.now j ≡ Some t) × IsApart role step.now t.step) v.items) }
{
    let mut row = no_marks(alloc, states.len())?;
    for (number, state) in states.iter().enumerate() {
        if is_apart(role, step, &state.step) {
            put(&mut row, number);
        }
    }
    Ok(row)
}

// The states whose steps name the role.
pub fn named(alloc: Global, states: &[State], role: NameId) -> Result<Vec<u8>, Memory>
    ensures { IfOk result (λ v. IsSetFor (length states.now) (NamesAt states.now role) v.items) }
{
    let mut marks = no_marks(alloc, states.len())?;
    for (number, state) in states.iter().enumerate() {
        if is_named(role, &state.step) {
            put(&mut marks, number);
        }
    }
    Ok(marks)
}

// Whether one of the states is apart from another of them.
pub fn has_clash(marks: &[u8], apart: &[Vec<u8>]) -> bool
    ensures { MatchBool result (IsTorn apart.now marks.now) (IsTorn apart.now marks.now → ⊥) }
{
    for (state, row) in apart.iter().enumerate() {
        if has(marks, state) && meets(marks, row.as_slice()) {
            return true;
        }
    }
    false
}

// Whether the first step names the role, and the second is the end, or names the role too and isn't
// the same for it.
fn is_apart(role: NameId, step: &ProtoStep, other: &ProtoStep) -> bool
    ensures { IsTrue result ↔ (IsApart role step.now other.now) }
{
    is_named(role, step) && (is_end(other) || is_named(role, other) && !is_alike(role, step, other))
}

fn is_end(step: &ProtoStep) -> bool
    ensures { IsTrue result ↔ (step.now ≡ end_step.End) }
{
    match step {
        ProtoStep::End => true,
        _ => false,
    }
}

// Whether two steps are the same for a role that both name.
fn is_alike(role: NameId, step: &ProtoStep, other: &ProtoStep) -> bool
    ensures { IsTrue result ↔ (IsAlike role step.now other.now) }
{
    match (step, other) {
        (
            ProtoStep::Value {
                from,
                to,
                payload,
                ..
            },
            ProtoStep::Value {
                from: from2,
                to: to2,
                payload: payload2,
                ..
            },
        ) => same_parties(from, to, from2, to2) && same_payload(payload, payload2),
        (
            ProtoStep::Choice { from, to, arms },
            ProtoStep::Choice {
                from: from2,
                to: to2,
                arms: arms2,
            },
        ) => {
            same_parties(from, to, from2, to2)
                && chooses_alike(role, from.name, arms.as_slice(), arms2.as_slice())
        }
        _ => false,
    }
}

fn same_parties(from: &Named, to: &Named, from2: &Named, to2: &Named) -> bool
    ensures { IsTrue result ↔ ((from.now.name ≡ from2.now.name) × (to.now.name ≡ to2.now.name)) }
{
    from.name == from2.name && to.name == to2.name
}

// Whether two choices have the same labels, where it is the role that chooses.
fn chooses_alike(role: NameId, from: NameId, arms: &[ProtoArm], others: &[ProtoArm]) -> bool
    ensures { IsTrue result ↔ (from ≡ role → SameLabels arms.now others.now) }
{
    from != role || same_labels(arms, others)
}

// Whether two choices have the same labels.
fn same_labels(arms: &[ProtoArm], others: &[ProtoArm]) -> bool
    ensures { IsTrue result ↔ (SameLabels arms.now others.now) }
{
    offers_all(arms, others) && offers_all(others, arms)
}

// Whether each label of the first arms is among the second ones.
fn offers_all(arms: &[ProtoArm], others: &[ProtoArm]) -> bool
    ensures { IsTrue result ↔ ((l : NameId) → IsIn l (labels_of arms.now) → IsIn l (labels_of others.now)) }
{
    for (number, arm) in arms.iter().enumerate() {
        if !offers_near(others, number, arm.label.name) {
            return false;
        }
    }
    true
}

// Whether a label is among these arms. It is looked for at the place where it stands if both choices
// have one order, and then everywhere.
fn offers_near(arms: &[ProtoArm], place: usize, label: NameId) -> bool
    ensures { IsTrue result ↔ (IsIn label (labels_of arms.now)) }
{
    stands_at(arms, place, label) || offers(arms, label)
}

fn stands_at(arms: &[ProtoArm], place: usize, label: NameId) -> bool
    ensures { IsTrue result → IsIn label (labels_of arms.now) }
{
    place < arms.len() && arms[place].label.name == label
}

fn offers(arms: &[ProtoArm], label: NameId) -> bool
    ensures { IsTrue result ↔ (IsIn label (labels_of arms.now)) }
{
    for arm in arms {
        if arm.label.name == label {
            return true;
        }
    }
    false
}
