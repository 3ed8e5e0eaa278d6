//! `check`.

ghost use Rattle.std.specs.Prelude.{◌≡◌, [], ◌∷◌, IfOk, codes};
ghost use Rattle.chor_host.specs.Tables.{functions_of};
ghost use Rattle.command_words.specs.declared.words.Command.TheVariants.{Check};
ghost use Rattle.chor_cmd.specs.Stops.{Answers, TouchesOnly};

use crate::ending::{Ending, Stop};
use crate::sources::fetch_accepted;
use crate::status::Status;
use chor_base::{Memory, Word};
use chor_host::HostTable;
use chor_io::Shelf;
use std::alloc::Global;
use std::thread::Threads;

/// Judges the file of this name by all classes of rules.
pub fn check<'a, R: Threads + Sync, F: Shelf>(
    rt: &R,
    alloc: Global,
    name: &'a Word,
    hosts: &HostTable,
    shelf: &mut F,
) -> Result<Ending, Stop<'a>>
    ensures answers { Answers (functions_of hosts.now) Check (name.now ∷ []) (F.state shelf.old) (F.state shelf.new) result }
    ensures only { TouchesOnly (name.now ∷ []) (F.state shelf.old) (F.state shelf.new) }
{
    let accepted = fetch_accepted(rt, alloc, name, hosts, shelf)?;
    drop(accepted);
    let text = ok_line(alloc)?;
    Ok(Ending {
        text,
        status: Status::Done,
    })
}

fn ok_line(alloc: Global) -> Result<Vec<u8>, Memory>
    ensures { IfOk result (λ text. text.items ≡ codes "ok\n") }
{
    let line = b"ok\n".to_vec(alloc)?;
    Ok(line)
}
