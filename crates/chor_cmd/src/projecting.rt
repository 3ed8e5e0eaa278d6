//! `project`.

ghost use Rattle.std.specs.Prelude.{◌≡◌, [], ◌∷◌, IfOk};
ghost use Rattle.chor_host.specs.Tables.{functions_of};
ghost use Rattle.endpoint_text.specs.Text.{endpoints_text};
ghost use Rattle.projection.specs.Projects.{Projects};
ghost use Rattle.command_words.specs.declared.words.Command.TheVariants.{Project};
ghost use Rattle.chor_cmd.specs.Outputs.{IsProjectionText};
ghost use Rattle.chor_cmd.specs.Stops.{Answers, TouchesOnly};

use crate::ending::{Ending, Stop};
use crate::sources::fetch_accepted;
use crate::status::Status;
use chor_base::{Memory, Word};
use chor_host::HostTable;
use chor_io::Shelf;
use endpoint_code::Endpoints;
use endpoint_text::print_endpoints;
use simulation::Accepted;
use std::alloc::Global;
use std::thread::Threads;

/// Writes the endpoint programs of the file of this name, which is judged by all classes of rules.
pub fn project<'a, R: Threads + Sync, F: Shelf>(
    rt: &R,
    alloc: Global,
    name: &'a Word,
    hosts: &HostTable,
    shelf: &mut F,
) -> Result<Ending, Stop<'a>>
    ensures answers { Answers (functions_of hosts.now) Project (name.now ∷ []) (F.state shelf.old) (F.state shelf.new) result }
    ensures only { TouchesOnly (name.now ∷ []) (F.state shelf.old) (F.state shelf.new) }
{
    let accepted = fetch_accepted(rt, alloc, name, hosts, shelf)?;
    let text = projection_text(alloc, &accepted);
    drop(accepted);
    let text = text?;
    Ok(Ending {
        text,
        status: Status::Done,
    })
}

// The text of the endpoint programs of an accepted file.
fn projection_text(alloc: Global, accepted: &Accepted) -> Result<Vec<u8>, Memory>
    requires { Projects accepted.now.typed.file accepted.now.endpoints }
    ensures { IfOk result (λ text. IsProjectionText accepted.now.typed.file text.items) }
{
    let text = text_of_endpoints(alloc, accepted.endpoints())?;
    Ok(text)
}

fn text_of_endpoints(alloc: Global, endpoints: &Endpoints) -> Result<Vec<u8>, Memory>
    ensures { IfOk result (λ text. text.items ≡ endpoints_text endpoints.now) }
{
    let mut text = Vec::new(alloc);
    print_endpoints(alloc, endpoints, &mut text)?;
    Ok(text)
}
