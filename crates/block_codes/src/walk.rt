//! The codes of all processes in scope, from the end of each block on.

ghost use Rattle.std.specs.Prelude.{◌≡◌, ◌<◌, IfOk, IfErr, length};
ghost use Rattle.chor_tree.specs.Source.{body_of};
ghost use Rattle.projection.specs.MergeFaults.{sites_in};
ghost use Rattle.block_codes.specs.Nodes.{IsAt, IsStatement, IsConditional};
ghost use Rattle.block_codes.specs.Walks.{AreCodes, StopsAt};

use crate::coded::Coded;
use crate::joined::join;
use crate::last::last_codes;
use crate::node::{Branches, Spot, Turn, spot_at, turn_of};
use crate::statement::{put_parts, scope_after};
use crate::stop::Stop;
use chor_base::{List, NameId};
use chor_tree::{File, NodeId};
use endpoint_code::Code;
use std::alloc::Global;

/// The codes of the processes in scope for the block that begins at a node, in their order. `Clash`
/// comes at the first conditional, by the brace that closes it, at which a process has codes for
/// both branches and no code is above both, and tells the first such process in scope there.
#[cycle(walk)]
pub fn codes(
    alloc: Global,
    file: &File,
    id: NodeId,
    scope: &[NameId],
    code: &mut Code,
) -> Result<List<Coded>, Stop>
    requires { id.0 < length file.now.tree.nodes }
    ensures codes { IfOk result (AreCodes file.now (body_of file.now id) scope.now code.old.nodes code.new.nodes) }
    ensures stopped { IfErr result (StopsAt file.now (sites_in scope.now (body_of file.now id))) }
{
    let spot = spot_at(file, id);
    match turn_of(&spot.node.form) {
        Turn::Next(next) => after_statement(alloc, &spot, next, scope, code),
        Turn::Branches(first, second) => {
            after_test(alloc, &spot, Branches { first, second }, scope, code)
        }
        Turn::Last => Ok(last_codes(alloc, &spot, scope, code)?),
    }
}

// From a statement on.
#[cycle(walk)]
fn after_statement(
    alloc: Global,
    spot: &Spot<'_>,
    next: NodeId,
    scope: &[NameId],
    code: &mut Code,
) -> Result<List<Coded>, Stop>
    requires at { IsAt spot.now.file.now spot.now.id spot.now.node.now }
    requires statement { IsStatement spot.now.node.now.form next }
    ensures codes { IfOk result (AreCodes spot.now.file.now (body_of spot.now.file.now spot.now.id) scope.now code.old.nodes code.new.nodes) }
    ensures stopped { IfErr result (StopsAt spot.now.file.now (sites_in scope.now (body_of spot.now.file.now spot.now.id))) }
{
    let form = &spot.node.form;
    let longer = scope_after(alloc, scope, form)?;
    let rest = codes(alloc, spot.file, next, longer.as_slice(), code)?;
    Ok(put_parts(alloc, form, &rest.as_slice()[..scope.len()], code)?)
}

// From a conditional on.
#[cycle(walk)]
fn after_test(
    alloc: Global,
    spot: &Spot<'_>,
    branches: Branches,
    scope: &[NameId],
    code: &mut Code,
) -> Result<List<Coded>, Stop>
    requires at { IsAt spot.now.file.now spot.now.id spot.now.node.now }
    requires conditional { IsConditional spot.now.node.now.form branches.first branches.second }
    ensures codes { IfOk result (AreCodes spot.now.file.now (body_of spot.now.file.now spot.now.id) scope.now code.old.nodes code.new.nodes) }
    ensures stopped { IfErr result (StopsAt spot.now.file.now (sites_in scope.now (body_of spot.now.file.now spot.now.id))) }
{
    let firsts = codes(alloc, spot.file, branches.first, scope, code)?;
    let seconds = codes(alloc, spot.file, branches.second, scope, code)?;
    join(
        alloc,
        spot.node,
        firsts.as_slice(),
        seconds.as_slice(),
        code,
    )
}
