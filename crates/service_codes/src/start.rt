//! The code of a service role after one start.

ghost use Rattle.std.specs.Prelude.{◌≡◌, ◌<◌, All, IfOk, length};
ghost use Rattle.chor_tree.specs.Source.{body_of};
ghost use Rattle.chor_semantics.specs.Sources.{served_of};
ghost use Rattle.projection.specs.Projects.{serving};
ghost use Rattle.projection.specs.MergeFaults.{sites_of, HasClash};
ghost use Rattle.block_codes.specs.Alone.{sites_of as own_sites};
ghost use Rattle.service_codes.specs.Starts.{HasNamesResolved, IsStartOf};
ghost use Rattle.service_codes.specs.Services.{IsDeclared, HasProcessCode, HasStartCode};

use crate::served::Served;
use block_codes::{Stop, code_of};
use chor_base::{Memory, NameId};
use chor_tree::{File, Form, NodeId, Part};
use endpoint_code::{Code, CodeId};
use renamed_codes::{Exchange, rename};
use std::alloc::Global;

/// The code of the new process that takes a service role in a start, from there on. The session
/// has the channel's name.
pub fn start_code(
    alloc: Global,
    file: &File,
    start: NodeId,
    served: Served,
    code: &mut Code,
) -> Result<CodeId, Memory>
    requires names { HasNamesResolved file.now }
    requires clean { All (λ s. HasClash file.now s → ⊥) (sites_of file.now) }
    requires start { IsStartOf file.now served.channel.name start }
    requires declared { IsDeclared file.now served }
    ensures { IfOk result (HasStartCode file.now served start code.old.nodes code.new.nodes) }
{
    match &file.tree.nodes.at(start.0 as usize).form {
        Form::Start {
            session,
            serve,
            next,
            ..
        } => {
            let Some(process) = serving(served.role.name, serve.as_slice()) else {
                unreachable!()
            };
            let own = process_code(alloc, file, *next, process, code)?;
            let names = Exchange {
                one: session.name,
                other: served.channel.name,
            };
            rename(alloc, code, own, &names)
        }
        _ => unreachable!(),
    }
}

// The new process that takes a role.
fn serving(role: NameId, serve: &[Part]) -> Option<NameId>
    ensures { result ≡ serving role (served_of serve.now) }
{
    for part in serve {
        if part.role.name == role {
            return Some(part.process.name);
        }
    }
    None
}

// The code of a process from a node on, where it can tell the branches of all conditionals apart.
fn process_code(
    alloc: Global,
    file: &File,
    node: NodeId,
    process: NameId,
    code: &mut Code,
) -> Result<CodeId, Memory>
    requires inside { node.0 < length file.now.tree.nodes }
    requires clean { All (λ s. HasClash file.now s → ⊥) (own_sites process (body_of file.now node)) }
    ensures { IfOk result (HasProcessCode file.now process node code.old.nodes code.new.nodes) }
{
    match code_of(alloc, file, node, process, code) {
        Ok(id) => Ok(id),
        Err(Stop::Clash(_, _)) => unreachable!(),
        Err(Stop::Memory) => Err(Memory),
    }
}
