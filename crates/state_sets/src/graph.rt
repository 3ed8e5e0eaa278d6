//! What a role's view is made from: where silent steps lead, and what the role's own acts lead to.

ghost use Rattle.std.specs.Prelude.{◌≡◌, ◌<◌, ◌⊎◌, ℕ, [], ◌∷◌, IfOk, OnOk, IsTrue, ◌↔◌, Some, None, length};
ghost use Rattle.global_types.specs.Moves.{IsIn};
ghost use Rattle.state_sets.specs.Moves.{action_of, actions_in};
ghost use Rattle.state_sets.specs.Ascending.{Ascend};
ghost use Rattle.state_sets.specs.Table.{group_words};
ghost use Rattle.state_sets.specs.Sets.{Has, row_at, IsSetFor};
ghost use Rattle.state_sets.specs.Graph.{HasMove, IsSilentPath, GoesSilently, Knows, AreApart, AreEdges, AreActsOf, AreGroups, AreGroupsOf, part_number, AreParts, AreEmptyParts, HasMoreIn, AreWithin, AreRowsFor, IsPutIn, IsThrough};

use crate::act::{Act, same_act};
use crate::marks::{has, no_marks, put, put_all};
use crate::moves::Move;
use crate::order::by_labels;
use chor_base::{Memory, Names};
use smallvec::SmallVec;
use std::alloc::Global;

/// An exchange as the states that it leads from and to.
#[derive(Clone, Copy, Default)]
pub struct Edge {
    pub from: u32,
    pub to: u32,
}

/// An act of the role, and all exchanges in which it does so.
pub struct Group {
    pub act: Act,
    pub edges: SmallVec<Edge, 1>,
}

impl Drop for Group {
    fn drop(self) {
        let Group { act: _, edges: _ } = self;
    }
}

// The acts of a role, by ascending labels.
pub fn groups(alloc: Global, moves: &[Move], names: &Names) -> Result<Vec<Group>, Memory>
    ensures are { IfOk result (λ v. AreGroups moves.now v.items) }
    ensures ascend { IfOk result (λ v. Ascend (group_words names.now v.items)) }
{
    let parts = parts(alloc, moves)?;
    let mut all = Vec::new(alloc);
    for part in parts.as_slice() {
        let mut more = acts(alloc, part.as_slice())?;
        all.append(&mut more)?;
    }
    let sorted = by_labels(alloc, all.as_slice(), names)?;
    groups_of(alloc, parts.as_slice(), sorted.as_slice())
}

// The moves in which the role acts, cut into parts by the numbers of their labels. An act is compared
// with those of its part alone, which are few also where no two exchanges have the same label.
fn parts(alloc: Global, moves: &[Move]) -> Result<Vec<Vec<Move>>, Memory>
    ensures some { IfOk result (λ v. 0 < length v.items) }
    ensures parts { IfOk result (λ v. AreParts (length v.items) moves.now v.items) }
{
    let count = moves.len() / SHARE + 1;
    let mut parts = no_parts(alloc, count)?;
    for item in moves {
        match &item.act {
            Some(act) => add_to_part(&mut parts, part_number(act, count), *item)?,
            None => {}
        }
    }
    Ok(parts)
}

// For how many moves there is a part.
const SHARE: usize = 4;

// So many lists with nothing in them.
fn no_parts(alloc: Global, count: usize) -> Result<Vec<Vec<Move>>, Memory>
    ensures { IfOk result (λ v. AreEmptyParts count v.items) }
{
    let mut parts = Vec::new(alloc);
    for _ in 0..count {
        let part = Vec::new(alloc);
        parts.push(part)?;
    }
    Ok(parts)
}

// A move comes into a part.
fn add_to_part(parts: &mut Vec<Vec<Move>>, number: usize, item: Move) -> Result<(), Memory>
    requires { number < length parts.old.items }
    ensures { OnOk result (HasMoreIn number item parts.old.items parts.new.items) }
{
    let part = &mut parts[number];
    part.push(item)?;
    Ok(())
}

// The part into which an act falls, of so many.
fn part_number(act: &Act, count: usize) -> usize
    requires { 0 < count }
    ensures { result ≡ part_number count act.now }
{
    match act {
        Act::Pick(_, label) | Act::Branch(_, label) => label.0 as usize % count,
        _ => 0,
    }
}

// These acts, each with the exchanges of its part in which the role does so.
fn groups_of(alloc: Global, parts: &[Vec<Move>], acts: &[Act]) -> Result<Vec<Group>, Memory>
    requires { 0 < length parts.now }
    ensures { IfOk result (λ v. AreGroupsOf parts.now acts.now v.items) }
{
    let mut groups = Vec::new(alloc);
    for act in acts {
        let number = part_number(act, parts.len());
        let edges = edges_of(alloc, parts[number].as_slice(), act)?;
        groups.push(Group { act: *act, edges })?;
    }
    Ok(groups)
}

// The acts of these moves, each once.
fn acts(alloc: Global, moves: &[Move]) -> Result<Vec<Act>, Memory>
    ensures { IfOk result (λ v. AreActsOf moves.now v.items) }
{
    let mut acts = Vec::new(alloc);
    for item in moves {
        add_act(&mut acts, item.act)?;
    }
    Ok(acts)
}

// An act comes in, unless it is there.
fn add_act(acts: &mut Vec<Act>, act: Option<Act>) -> Result<(), Memory>
    ensures kept { (b : Act) → IsIn b acts.old.items → IsIn b acts.new.items }
    ensures own { (b : Act) → IsIn b acts.new.items → IsIn b acts.old.items ⊎ (act ≡ Some b) }
    ensures added { OnOk result ((a : Act) → act ≡ Some a → Knows acts.new.items a) }
    ensures apart { OnOk result (AreApart acts.old.items → AreApart acts.new.items) }
{
    if let Some(act) = act
        && !knows(acts.as_slice(), &act)
    {
        acts.push(act)?;
    }
    Ok(())
}

// Whether an act is the same as one of these.
fn knows(acts: &[Act], act: &Act) -> bool
    ensures { IsTrue result ↔ (Knows acts.now act.now) }
{
    for known in acts {
        if same_act(known, act) {
            return true;
        }
    }
    false
}

// The exchanges in which the role does this.
fn edges_of(alloc: Global, moves: &[Move], act: &Act) -> Result<SmallVec<Edge, 1>, Memory>
    ensures { IfOk result (λ v. AreEdges moves.now (action_of act.now) v.items) }
{
    let mut edges = SmallVec::new(alloc);
    for item in moves {
        if does(item, act) {
            edges.push(Edge {
                from: item.from,
                to: item.to,
            })?;
        }
    }
    Ok(edges)
}

// Whether the role does this in a move.
fn does(item: &Move, act: &Act) -> bool
    ensures { IsTrue result ↔ (actions_in item.now.act ≡ action_of act.now ∷ []) }
{
    match &item.act {
        Some(own) => same_act(own, act),
        None => false,
    }
}

// For each of so many states the states to which silent exchanges lead from it, itself included.
pub fn reach(alloc: Global, count: usize, moves: &[Move]) -> Result<Vec<Vec<u8>>, Memory>
    requires { AreWithin count moves.now }
    ensures { IfOk result (λ v. AreRowsFor count (GoesSilently moves.now) v.items) }
{
    let mut rows = direct(alloc, count, moves)?;
    for state in 0..count {
        go_through(alloc, &mut rows, state)?;
    }
    Ok(rows)
}

// For each state itself, and those to which one silent exchange leads.
fn direct(alloc: Global, count: usize, moves: &[Move]) -> Result<Vec<Vec<u8>>, Memory>
    requires { AreWithin count moves.now }
    ensures { IfOk result (λ v. AreRowsFor count (λ i j. (i ≡ j) ⊎ HasMove moves.now i [] j) v.items) }
{
    let mut rows = alone(alloc, count)?;
    for item in moves {
        if is_silent(item) {
            put_in_row(&mut rows, item.from as usize, item.to as usize);
        }
    }
    Ok(rows)
}

// For each state itself.
fn alone(alloc: Global, count: usize) -> Result<Vec<Vec<u8>>, Memory>
    ensures { IfOk result (λ v. AreRowsFor count (λ i j. i ≡ j) v.items) }
{
    let mut rows = Vec::new(alloc);
    for state in 0..count {
        rows.push(own_row(alloc, count, state)?)?;
    }
    Ok(rows)
}

pub fn own_row(alloc: Global, count: usize, state: usize) -> Result<Vec<u8>, Memory>
    requires { state < count }
    ensures { IfOk result (λ v. IsSetFor count (λ j. state ≡ j) v.items) }
{
    let mut row = no_marks(alloc, count)?;
    put(&mut row, state);
    Ok(row)
}

// A state comes into a row.
fn put_in_row(rows: &mut Vec<Vec<u8>>, number: usize, state: usize)
    requires { number < length rows.old.items }
    ensures { IsPutIn number state rows.old.items rows.new.items }
{
    let row = &mut rows[number];
    put(row, state);
}

// Whether a move isn't the role's.
fn is_silent(item: &Move) -> bool
    ensures { IsTrue result ↔ (actions_in item.now.act ≡ []) }
{
    match &item.act {
        Some(_) => false,
        None => true,
    }
}

// What leads to a state leads to all that this state leads to.
fn go_through(alloc: Global, rows: &mut Vec<Vec<u8>>, state: usize) -> Result<(), Memory>
    requires state { state < length rows.old.items }
    requires sizes { (i : ℕ) → i < length rows.old.items → IsSetFor (length rows.old.items) (Has (row_at rows.old.items i)) (row_at rows.old.items i) }
    ensures { OnOk result (IsThrough (length rows.old.items) state rows.old.items rows.new.items) }
{
    let through = Vec::from_slice(alloc, rows[state].as_slice())?;
    for number in 0..rows.len() {
        let row = &mut rows[number];
        if has(row.as_slice(), state) {
            put_all(row, through.as_slice());
        }
    }
    Ok(())
}

// The states from which silent exchanges lead back to them.
pub fn circling(
    alloc: Global,
    count: usize,
    moves: &[Move],
    reach: &[Vec<u8>],
) -> Result<Vec<u8>, Memory>
    requires { AreWithin count moves.now }
    ensures { IfOk result (λ v. IsSetFor count (λ i. (j : ℕ) × HasMove moves.now i [] j × Has (row_at reach.now j) i) v.items) }
{
    let mut marks = no_marks(alloc, count)?;
    for item in moves {
        if leads_back(reach, item) {
            put(&mut marks, item.from as usize);
        }
    }
    Ok(marks)
}

// Whether a move isn't the role's, and silent exchanges lead back from it.
fn leads_back(reach: &[Vec<u8>], item: &Move) -> bool
    ensures { IsTrue result ↔ ((actions_in item.now.act ≡ []) × Has (row_at reach.now item.now.to) item.now.from) }
{
    match &item.act {
        Some(_) => false,
        None => is_in_row(reach, item.to as usize, item.from as usize),
    }
}

fn is_in_row(rows: &[Vec<u8>], number: usize, state: usize) -> bool
    ensures { IsTrue result ↔ (Has (row_at rows.now number) state) }
{
    number < rows.len() && has(rows[number].as_slice(), state)
}
