//! `gen`.

ghost use Rattle.std.specs.Prelude.{◌≤◌, ◌≡◌, IfOk};
ghost use Rattle.chor_host.specs.Tables.{functions_of};
ghost use Rattle.chor_cmd.specs.declared.status.Status.TheVariants.{Done};
ghost use Rattle.chor_cmd.specs.Outputs.{IsGenerated};

use crate::ending::Ending;
use crate::status::Status;
use chor_base::Memory;
use chor_host::HostTable;
use generated_runs::{generated_summary, generated_text};
use std::alloc::Global;
use std::thread::Threads;

/// Makes the file of so many rounds, and writes its text or what its run counts.
pub fn generate<R: Threads + Sync>(
    rt: &R,
    alloc: Global,
    count: u32,
    whole: bool,
    hosts: &HostTable,
) -> Result<Ending, Memory>
    requires some { 1 ≤ count }
    requires few { count ≤ 4000 }
    ensures done { IfOk result (λ ending. ending.status ≡ Done) }
    ensures text { IfOk result (λ ending. IsGenerated (functions_of hosts.now) count whole ending.text.items) }
{
    let text = if whole {
        generated_text(alloc, count)?
    } else {
        generated_summary(rt, alloc, count, hosts)?
    };
    Ok(Ending {
        text,
        status: Status::Done,
    })
}
