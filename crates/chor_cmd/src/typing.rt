//! `types`.

ghost use Rattle.std.specs.Prelude.{[], ◌∷◌};
ghost use Rattle.chor_host.specs.Tables.{functions_of};
ghost use Rattle.command_words.specs.declared.words.Command.TheVariants.{Types};
ghost use Rattle.chor_cmd.specs.Stops.{Answers, TouchesOnly};

use crate::ending::{Ending, Stop};
use crate::sources::fetch_source;
use crate::status::Status;
use chor_base::Word;
use chor_host::HostTable;
use chor_io::Shelf;
use source_check::types_text;
use std::alloc::Global;

/// Writes the local types of all roles of the file of this name, which is judged by the rules of tokens,
/// of the grammar, of names, of protocols and of views.
pub fn types<'a, F: Shelf>(
    alloc: Global,
    name: &'a Word,
    hosts: &HostTable,
    shelf: &mut F,
) -> Result<Ending, Stop<'a>>
    ensures answers { Answers (functions_of hosts.now) Types (name.now ∷ []) (F.state shelf.old) (F.state shelf.new) result }
    ensures only { TouchesOnly (name.now ∷ []) (F.state shelf.old) (F.state shelf.new) }
{
    let file = fetch_source(alloc, name, shelf)?;
    let text = types_text(alloc, &file, hosts);
    drop(file);
    let text = text?;
    Ok(Ending {
        text,
        status: Status::Done,
    })
}
