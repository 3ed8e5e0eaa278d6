//! The transcript of a source's run.

ghost use Rattle.std.specs.Prelude.{◌≡◌, IfOk, length};
ghost use Rattle.endpoint_runs.specs.Runs.{close_of};
ghost use Rattle.transcript.specs.Text.{transcript};
ghost use Rattle.program_runs.specs.Books.{book_of};
ghost use Rattle.program_runs.specs.Transcripts.{events_of, closing_text};

use accepted_replays::names_of;
use chor_base::Memory;
use chor_tree::File;
use endpoint_runs::Ran;
use program_runs::tell_history;
use std::alloc::Global;
use transcript::Book;

// The transcript of a run, with the words of a source.
pub fn tell(alloc: Global, file: &File, ran: &Ran) -> Result<Vec<u8>, Memory>
    ensures { IfOk result (λ text. text.items ≡ transcript (book_of file.now) (events_of ran.now.history) (closing_text (book_of file.now) (length ran.now.history) (close_of ran.now.closed))) }
{
    let processes = names_of(alloc, file.processes.as_slice())?;
    let book = Book {
        names: &file.names,
        texts: &file.texts,
        processes: &processes,
    };
    tell_history(alloc, ran.history.as_slice(), ran.closed, &book)
}
