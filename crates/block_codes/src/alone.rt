//! The code of one process, from the end of each block on.

ghost use Rattle.std.specs.Prelude.{◌≡◌, ◌<◌, IfOk, IfErr, length};
ghost use Rattle.chor_tree.specs.Source.{body_of};
ghost use Rattle.block_codes.specs.Nodes.{IsAt, IsStatement, IsConditional};
ghost use Rattle.block_codes.specs.Walks.{StopsAt};
ghost use Rattle.block_codes.specs.Alone.{sites_of, HasCode};

use crate::coded::Coded;
use crate::joined::join_one;
use crate::last::last_code;
use crate::node::{Branches, Spot, Turn, spot_at, turn_of};
use crate::statement::put_part;
use crate::stop::Stop;
use chor_base::NameId;
use chor_tree::{File, NodeId};
use endpoint_code::{Code, CodeId};
use std::alloc::Global;

/// The code of one process for the block that begins at a node. `Clash` comes at the first
/// conditional, by the brace that closes it, whose branches this process can't tell apart. No other
/// process is looked at, so it takes no list of them.
#[cycle(alone)]
pub fn code_of(
    alloc: Global,
    file: &File,
    id: NodeId,
    process: NameId,
    code: &mut Code,
) -> Result<CodeId, Stop>
    requires { id.0 < length file.now.tree.nodes }
    ensures code { IfOk result (HasCode file.now (body_of file.now id) process code.old.nodes code.new.nodes) }
    ensures stopped { IfErr result (StopsAt file.now (sites_of process (body_of file.now id))) }
{
    let spot = spot_at(file, id);
    match turn_of(&spot.node.form) {
        Turn::Next(next) => after_statement(alloc, &spot, next, process, code),
        Turn::Branches(first, second) => {
            after_test(alloc, &spot, Branches { first, second }, process, code)
        }
        Turn::Last => Ok(last_code(alloc, &spot, process, code)?),
    }
}

// From a statement on.
#[cycle(alone)]
fn after_statement(
    alloc: Global,
    spot: &Spot<'_>,
    next: NodeId,
    process: NameId,
    code: &mut Code,
) -> Result<CodeId, Stop>
    requires at { IsAt spot.now.file.now spot.now.id spot.now.node.now }
    requires statement { IsStatement spot.now.node.now.form next }
    ensures code { IfOk result (HasCode spot.now.file.now (body_of spot.now.file.now spot.now.id) process code.old.nodes code.new.nodes) }
    ensures stopped { IfErr result (StopsAt spot.now.file.now (sites_of process (body_of spot.now.file.now spot.now.id))) }
{
    let rest = code_of(alloc, spot.file, next, process, code)?;
    let coded = Coded {
        process,
        code: rest,
    };
    Ok(put_part(alloc, &spot.node.form, coded, code)?)
}

// From a conditional on.
#[cycle(alone)]
fn after_test(
    alloc: Global,
    spot: &Spot<'_>,
    branches: Branches,
    process: NameId,
    code: &mut Code,
) -> Result<CodeId, Stop>
    requires at { IsAt spot.now.file.now spot.now.id spot.now.node.now }
    requires conditional { IsConditional spot.now.node.now.form branches.first branches.second }
    ensures code { IfOk result (HasCode spot.now.file.now (body_of spot.now.file.now spot.now.id) process code.old.nodes code.new.nodes) }
    ensures stopped { IfErr result (StopsAt spot.now.file.now (sites_of process (body_of spot.now.file.now spot.now.id))) }
{
    let first = code_of(alloc, spot.file, branches.first, process, code)?;
    let second = code_of(alloc, spot.file, branches.second, process, code)?;
    let first = Coded {
        process,
        code: first,
    };
    let second = Coded {
        process,
        code: second,
    };
    join_one(alloc, spot.node, first, second, code)
}
