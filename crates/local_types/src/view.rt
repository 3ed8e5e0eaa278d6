//! The type of a role, and the rules that its view keeps.

ghost use Rattle.std.specs.Prelude.{◌≡◌, ◌≤◌, ℕ, List, IfOk, IfErr, OnOk, IsSome, Some, MatchBool, length};
ghost use Rattle.global_types.specs.Views.{HasNoViewFault};
ghost use Rattle.state_sets.specs.Sets.{IsSetFor, HasTwo};
ghost use Rattle.state_sets.specs.Kin.{AreKin};
ghost use Rattle.local_types.specs.States.{labelled, IsStateOf, AreStatesOf};
ghost use Rattle.state_sets.specs.declared.table.Row.{Row};
ghost use Rattle.state_sets.specs.Table.{IsLeft, IsTorn, HasTorn, HasAscendingArms, IsWhole, Circles};
ghost use Rattle.chor_tree.specs.Protocols.{Protocol};
ghost use Rattle.global_types.specs.Moves.{IsIn};
ghost use Rattle.local_types.specs.Reading.{IsTypeOf, IsBreadthFirst, HasAscendingLabels, HasDistinctLabels, role_place, IsRefusal, IsRefusalBy, HasFineRoles, IsFirstRole, IsFirstRefusal};

use crate::apart::{apart, has_clash, named};
use crate::local_type::{LocalState, LocalType};
use chor_base::{Denied, List, Memory, NameId, Names, Place, Refusal, Rule};
use chor_tree::{File, Named, Protocol, State};
use state_sets::{Act, Arm, Row, Sight, has_two, meets, sight_of};
use std::alloc::Global;

/// The type of a role: what it does and sees in a protocol.
///
/// It is refused by V3 where the role would have to tell more than 1,024 local states apart, else by
/// V2 where others may go on for ever without it while it waits, else by V1 where it would have to
/// act differently in states that it can't tell apart. The place is the role's in the head of the
/// protocol. States are numbered as they are found, breadth first, by ascending labels.
pub fn local(
    alloc: Global,
    protocol: &Protocol,
    role: NameId,
    names: &Names,
) -> Result<LocalType, Denied>
    requires { IsSome (role_place protocol.now.roles role) }
    ensures stands { IfOk result (λ t. IsTypeOf protocol.now.states role t.states) }
    ensures numbered { IfOk result (λ t. IsBreadthFirst t.states) }
    ensures ascend { IfOk result (λ t. HasAscendingLabels names.now t.states) }
    ensures distinct { IfOk result (λ t. HasDistinctLabels t.states) }
    ensures fine { OnOk result (HasNoViewFault protocol.now.states role) }
    ensures refused { IfErr result (IsRefusal protocol.now role) }
{
    match sight_of(alloc, protocol, role, names, MOST)? {
        Some(sight) => judged(alloc, protocol, role, &sight),
        None => Err(refused(protocol, role, Rule::V3)),
    }
}

// The most sets of states that a role may have to tell apart.
const MOST: usize = 1024;

// The type of a role that has no more than it can tell apart.
fn judged(
    alloc: Global,
    protocol: &Protocol,
    role: NameId,
    sight: &Sight,
) -> Result<LocalType, Denied>
    requires role { IsSome (role_place protocol.now.roles role) }
    requires few { length sight.now.rows.items ≤ 1024 }
    requires whole { IsWhole protocol.now.states role (length protocol.now.states) sight.now.rows.items }
    requires circling { IsSetFor (length protocol.now.states) (Circles protocol.now.states role) sight.now.circling.items }
    ensures stands { IfOk result (λ t. IsTypeOf protocol.now.states role t.states) }
    ensures numbered { IfOk result (λ t. IsBreadthFirst t.states) }
    ensures ascend { IfOk result (λ t. (names : List (List ℕ)) → HasAscendingArms names sight.now.rows.items → HasAscendingLabels names t.states) }
    ensures distinct { IfOk result (λ t. HasDistinctLabels t.states) }
    ensures fine { OnOk result (HasNoViewFault protocol.now.states role) }
    ensures refused { IfErr result (IsRefusal protocol.now role) }
{
    let rows = sight.rows.as_slice();
    let states = protocol.states.as_slice();
    let named = named(alloc, states, role)?;
    if leaves_behind(rows, sight.circling.as_slice(), named.as_slice()) {
        return Err(refused(protocol, role, Rule::V2));
    }
    let torn = has_torn(alloc, states, role, rows)?;
    if torn {
        return Err(refused(protocol, role, Rule::V1));
    }
    Ok(LocalType {
        states: states_of(alloc, rows)?,
    })
}

// The refusal of a role.
fn refused(protocol: &Protocol, role: NameId, rule: Rule) -> Denied
    requires { IsSome (role_place protocol.now.roles role) }
    ensures { IsRefusalBy rule protocol.now role result }
{
    Denied::Refused(Refusal {
        rule,
        place: place_of(protocol.roles.as_slice(), role),
        who: None,
    })
}

// Where a role stands among these.
fn place_of(roles: &[Named], role: NameId) -> Place
    requires { IsSome (role_place roles.now role) }
    ensures { role_place roles.now role ≡ Some result }
{
    for named in roles {
        if named.name == role {
            return named.place;
        }
    }
    unreachable!()
}

// Whether in some set of states one is circling and one names the role.
fn leaves_behind(rows: &[Row], circling: &[u8], named: &[u8]) -> bool
    ensures { MatchBool result ((row : Row) × IsIn row rows.now × IsLeft circling.now named.now row) ((row : Row) → IsIn row rows.now → IsLeft circling.now named.now row → ⊥) }
{
    for row in rows {
        if is_left(row, circling, named) {
            return true;
        }
    }
    false
}

fn is_left(row: &Row, circling: &[u8], named: &[u8]) -> bool
    ensures { MatchBool result (IsLeft circling.now named.now row.now) (IsLeft circling.now named.now row.now → ⊥) }
{
    meets(row.still.as_slice(), circling) && meets(row.still.as_slice(), named)
}

// Whether in some set of states two are apart. No state is apart from itself, so that none is where
// no set has two states.
fn has_torn(alloc: Global, states: &[State], role: NameId, rows: &[Row]) -> Result<bool, Memory>
    ensures { IfOk result (λ torn. MatchBool torn (HasTorn states.now role rows.now) (HasTorn states.now role rows.now → ⊥)) }
{
    if !are_crowded(rows) {
        return Ok(false);
    }
    let apart = apart(alloc, states, role)?;
    Ok(clashes(rows, apart.as_slice()))
}

// Whether some set has two states.
fn are_crowded(rows: &[Row]) -> bool
    ensures { MatchBool result ((row : Row) × IsIn row rows.now × HasTwo row.still.items) ((row : Row) → IsIn row rows.now → HasTwo row.still.items → ⊥) }
{
    for row in rows {
        if has_two(row.still.as_slice()) {
            return true;
        }
    }
    false
}

// Whether in some set of states two are apart by a table.
fn clashes(rows: &[Row], apart: &[Vec<u8>]) -> bool
    ensures { MatchBool result ((row : Row) × IsIn row rows.now × IsTorn apart.now row.still.items) ((row : Row) → IsIn row rows.now → IsTorn apart.now row.still.items → ⊥) }
{
    for row in rows {
        if has_clash(row.still.as_slice(), apart) {
            return true;
        }
    }
    false
}

// The states of a type.
fn states_of(alloc: Global, rows: &[Row]) -> Result<List<LocalState>, Memory>
    requires { (row : Row) → IsIn row rows.now → AreKin row.arms.items }
    ensures { IfOk result (λ ts. AreStatesOf rows.now ts) }
{
    let mut states = List::new(alloc);
    for row in rows {
        states.push(state_of(alloc, row.arms.as_slice())?)?;
    }
    Ok(states)
}

// The state from which these acts go on, which are all of one kind and with one other role.
fn state_of(alloc: Global, arms: &[Arm]) -> Result<LocalState, Memory>
    requires { AreKin arms.now }
    ensures { IfOk result (λ t. IsStateOf arms.now t) }
{
    if arms.is_empty() {
        return Ok(LocalState::End);
    }
    let first = arms[0];
    match first.act {
        Act::Send(role, payload) => Ok(LocalState::Send(role, payload, first.next)),
        Act::Recv(role, payload) => Ok(LocalState::Recv(role, payload, first.next)),
        Act::Pick(role, _) => Ok(LocalState::Pick(role, labels(alloc, arms)?)),
        Act::Branch(role, _) => Ok(LocalState::Branch(role, labels(alloc, arms)?)),
    }
}

// The labels of these acts, each with the number of the state after it.
fn labels(alloc: Global, arms: &[Arm]) -> Result<List<(NameId, u32)>, Memory>
    ensures { IfOk result (λ ls. ls ≡ labelled arms.now) }
{
    let mut labels = List::new(alloc);
    for arm in arms {
        match arm.act {
            Act::Pick(_, label) | Act::Branch(_, label) => labels.push((label, arm.next))?,
            _ => {}
        }
    }
    Ok(labels)
}

/// Checks the views of all roles of all protocols. The first role that has a fault decides, in the
/// order of the file.
pub fn check_views(alloc: Global, file: &File) -> Result<(), Denied>
    ensures fine { OnOk result ((p : Protocol) → IsIn p file.now.protocols → HasFineRoles p p.roles) }
    ensures refused { IfErr result (IsFirstRefusal file.now.protocols) }
{
    for protocol in file.protocols.as_slice() {
        match check_roles(alloc, protocol, &file.names) {
            Ok(()) => {}
            Err(denied) => return Err(denied),
        }
    }
    Ok(())
}

fn check_roles(alloc: Global, protocol: &Protocol, names: &Names) -> Result<(), Denied>
    ensures fine { OnOk result (HasFineRoles protocol.now protocol.now.roles) }
    ensures refused { IfErr result (IsFirstRole protocol.now) }
{
    for role in protocol.roles.as_slice() {
        match local(alloc, protocol, role.name, names) {
            Ok(_) => {}
            Err(denied) => return Err(denied),
        }
    }
    Ok(())
}
