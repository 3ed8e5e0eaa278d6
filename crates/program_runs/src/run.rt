//! The transcript of a run.

ghost use Rattle.std.specs.Prelude.{◌≡◌, ◌<◌, ◌≤◌, ◌^◌, IfOk, length, map};
ghost use Rattle.chor_host.specs.Functions.{names_of};
ghost use Rattle.chor_host.specs.Tables.{functions_of};
ghost use Rattle.endpoint_code.specs.Faults.{IsFaultlessWith};
ghost use Rattle.endpoint_runs.specs.Runs.{close_of};
ghost use Rattle.transcript.specs.Text.{transcript};
ghost use Rattle.transcript.specs.Books.{words};
ghost use Rattle.program_runs.specs.Transcripts.{events_of, closing_text, is_stuck, IsTranscriptOf};

use crate::telling::tell_run;
use chor_base::{List, Memory, NameId};
use chor_host::HostTable;
use endpoint_code::{Endpoints, Process};
use endpoint_runs::{Closed, Run, Schedule};
use std::alloc::Global;
use transcript::Book;

/// The transcript of a run, and whether the run is stuck.
#[derive(Drop)]
pub struct Executed {
    pub text: Vec<u8>,
    pub stuck: bool,
}

/// The transcript of the run of endpoint programs by the pick rule with this seed, until every process
/// has ended, there are as many events as asked for, or no process can step. Each queue takes at most as
/// many loads as the capacity says, if there is one. The last line tells how the run ends, and where it
/// is stuck, who waits for what.
#[tactic(auto, using(crate::proofs::Transcripts::told))]
pub fn execute(
    alloc: Global,
    endpoints: &Endpoints,
    hosts: &HostTable,
    capacity: Option<u32>,
    schedule: Schedule,
) -> Result<Executed, Memory>
    requires faultless { IsFaultlessWith (names_of (functions_of hosts.now)) endpoints.now }
    requires seed { schedule.seed < 2 ^ 32 }
    requires few { schedule.steps ≤ 1000000 }
    ensures { IfOk result (λ x. IsTranscriptOf (functions_of hosts.now) endpoints.now capacity schedule.seed schedule.steps x.text.items x.stuck) }
{
    let run = Run::new(alloc, endpoints, capacity, schedule)?;
    let processes = names_of(alloc, endpoints.processes.as_slice())?;
    let book = Book {
        names: &endpoints.names,
        texts: &endpoints.texts,
        processes: &processes,
    };
    let told = tell_run(alloc, run, hosts, &book)?;
    Ok(Executed {
        text: told.text,
        stuck: is_stuck(told.closed),
    })
}

pub(crate) fn is_stuck(closed: Closed) -> bool
    ensures { result ≡ is_stuck (close_of closed) }
{
    match closed {
        Closed::Stuck(_, _) => true,
        _ => false,
    }
}

pub(crate) fn names_of(alloc: Global, processes: &[Process]) -> Result<List<NameId>, Memory>
    ensures { IfOk result (λ list. list ≡ map (λ p. p.name) processes.now) }
{
    let mut list = List::new(alloc);
    for process in processes {
        list.push(process.name)?;
    }
    Ok(list)
}
