//! What a role can tell apart in a protocol.

ghost use Rattle.std.specs.Prelude.{◌<◌, ◌≤◌, IfOk, MatchOption, length};
ghost use Rattle.state_sets.specs.Sets.{IsSetFor};
ghost use Rattle.state_sets.specs.Table.{HasAscendingArms, AreTooMany, IsWhole, Circles};

use crate::graph::{circling, groups, reach};
use crate::moves::moves;
use crate::table::{Row, rows};
use chor_base::{Memory, NameId, Names};
use chor_tree::Protocol;
use std::alloc::Global;

/// What a role can tell apart, and the states from which others may go in a circle without it.
pub struct Sight {
    pub rows: Vec<Row>,
    pub circling: Vec<u8>,
}

impl Drop for Sight {
    fn drop(self) {
        let Sight {
            rows: _,
            circling: _,
        } = self;
    }
}

/// What a role can tell apart in a protocol. There is none where this is more than so many sets of
/// states.
pub fn sight_of(
    alloc: Global,
    protocol: &Protocol,
    role: NameId,
    names: &Names,
    most: usize,
) -> Result<Option<Sight>, Memory>
    requires { 0 < most }
    ensures ascend { IfOk result (λ o. MatchOption o (Unit {0}) (λ s. HasAscendingArms names.now s.rows.items)) }
    ensures few { IfOk result (λ o. MatchOption o (Unit {0}) (λ s. length s.rows.items ≤ most)) }
    ensures seen { IfOk result (λ o. MatchOption o (AreTooMany protocol.now.states role (length protocol.now.states) most) (λ s. IsWhole protocol.now.states role (length protocol.now.states) s.rows.items × IsSetFor (length protocol.now.states) (Circles protocol.now.states role) s.circling.items)) }
{
    let moves = moves(alloc, protocol, role)?;
    let groups = groups(alloc, moves.as_slice(), names)?;
    let count = protocol.states.len();
    let reach = reach(alloc, count, moves.as_slice())?;
    let circling = circling(alloc, count, moves.as_slice(), reach.as_slice())?;
    match rows(alloc, groups.as_slice(), reach.as_slice(), most)? {
        Some(rows) => Ok(Some(Sight { rows, circling })),
        None => Ok(None),
    }
}
