//! The transcript of a history.

ghost use Rattle.std.specs.Prelude.{◌≡◌, IfOk, length};
ghost use Rattle.endpoint_runs.specs.Runs.{close_of};
ghost use Rattle.transcript.specs.Books.{words};
ghost use Rattle.transcript.specs.Text.{transcript};
ghost use Rattle.program_runs.specs.Transcripts.{events_of, closing_text};

use crate::closing::put_closing;
use chor_base::{Entry, Memory};
use endpoint_runs::Closed;
use std::alloc::Global;
use transcript::{Book, Lines};

/// The transcript of a run of these events, which is closed so, with the words of this book. The workers
/// that made them aren't written.
#[tactic(auto, using(crate::proofs::Histories::told))]
pub fn tell_history(
    alloc: Global,
    history: &[Entry],
    closed: Closed,
    book: &Book,
) -> Result<Vec<u8>, Memory>
    ensures { IfOk result (λ text. text.items ≡ transcript (words book.now) (events_of history.now) (closing_text (words book.now) (length history.now) (close_of closed))) }
{
    let mut lines = Lines::new(alloc)?;
    lines.put(history, book)?;
    let count = lines.count();
    let mut text = lines.into_text();
    put_closing(&mut text, alloc, count, closed, book)?;
    text.push(b'\n')?;
    Ok(text)
}
