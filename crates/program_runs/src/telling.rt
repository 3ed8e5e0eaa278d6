//! A run and its transcript, part by part.

ghost use Rattle.std.specs.Prelude.{◌≡◌, ◌++◌, ◌∷◌, [], IfOk};
ghost use Rattle.chor_host.specs.Functions.{names_of, hosts_in};
ghost use Rattle.chor_host.specs.Tables.{functions_of};
ghost use Rattle.endpoint_code.specs.Faults.{AsksKnown, is_listed};
ghost use Rattle.endpoint_runs.specs.Runs.{close_of};
ghost use Rattle.transcript.specs.Books.{words};
ghost use Rattle.program_runs.specs.Transcripts.{closing_text};
ghost use Rattle.program_runs.specs.Told.{HasBegun, IsTold};

use crate::closing::put_closing;
use chor_base::Memory;
use chor_host::HostTable;
use endpoint_runs::{Closed, Run};
use std::alloc::Global;
use transcript::{Book, Lines};

/// The transcript of a run, and how the run is closed.
#[derive(Drop)]
pub struct Told {
    pub text: Vec<u8>,
    pub closed: Closed,
}

/// Makes a run that has just begun, to its end, and its transcript, with the words of this book. The
/// events are told part by part, so that they needn't be kept.
pub fn tell_run(alloc: Global, run: Run<'_>, hosts: &HostTable, book: &Book) -> Result<Told, Memory>
    requires hosts { AsksKnown (is_listed (names_of (functions_of hosts.now)) run.network.endpoints) run.network.endpoints }
    requires begun { HasBegun run }
    ensures { IfOk result (λ told. IsTold (words book.now) (hosts_in run.entry.network.endpoints.names (functions_of hosts.now)) run.entry told.text.items (close_of told.closed)) }
{
    let mut run = run;
    let mut lines = Lines::new(alloc)?;
    loop {
        let closed = run.go_on(hosts)?;
        lines.put(run.part(), book)?;
        if let Some(closed) = closed {
            let told = closed_text(alloc, lines, closed, book)?;
            return Ok(told);
        }
    }
}

// The lines of a run, and the last line, which tells how it is closed.
fn closed_text(alloc: Global, lines: Lines, closed: Closed, book: &Book) -> Result<Told, Memory>
    ensures closed { IfOk result (λ told. told.closed ≡ closed) }
    ensures text { IfOk result (λ told. told.text.items ≡ lines.text.items ++ closing_text (words book.now) lines.count (close_of closed) ++ 10 ∷ []) }
{
    let count = lines.count();
    let mut text = lines.into_text();
    put_closing(&mut text, alloc, count, closed, book)?;
    text.push(b'\n')?;
    Ok(Told { text, closed })
}
