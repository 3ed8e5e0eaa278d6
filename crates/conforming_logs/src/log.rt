//! A file of events that is judged.

ghost use Rattle.std.specs.Prelude.{◌≡◌, ◌≤◌, ◌^◌, IfOk, length};
ghost use Rattle.chor_tree.specs.Names.{names_in};
ghost use Rattle.conform.specs.Judged.{IsFit};
ghost use Rattle.conforming_logs.specs.Logs.{IsJudgeable, ConformsFile, ConformsSource};
ghost use Rattle.event_reader.specs.Known.{AreWords, IsBook};
ghost use Rattle.program_runs.specs.Books.{book_of};
ghost use Rattle.transcript.specs.Books.{words};

use crate::reading::follow_lines;
use chor_base::{List, Memory, NameId};
use chor_tree::{File, Named};
use event_files::judge;
use replay::{ReplayFault, Replayed};
use std::alloc::Global;
use transcript::Book;

/// Judges a file of events by the protocols of a source alone, role by role. `Unmatched` tells the
/// number of the first line, from 1, that doesn't match. A line is split off at each line feed, a
/// carriage return belongs to its line, and the last line may be `end N` or `limit N`. It takes memory
/// for the sessions and what is in transit, and for one event at a time. The names of each source that
/// was read are words.
pub fn conform_log(alloc: Global, file: &File, bytes: &[u8]) -> Result<Replayed, ReplayFault>
    requires source { IsJudgeable file.now }
    requires words { AreWords file.now.names }
    requires few { length bytes.now ≤ 2 ^ 26 }
    ensures { ConformsSource file.now bytes.now result }
{
    tells_apart(file);
    let processes = names_of(alloc, file.processes.as_slice())?;
    let book = Book {
        names: &file.names,
        texts: &file.texts,
        processes: &processes,
    };
    conform_lines(alloc, file, &book, bytes)
}

// Judges the lines of a file, whose names and texts the book has.
fn conform_lines(
    alloc: Global,
    file: &File,
    book: &Book,
    bytes: &[u8],
) -> Result<Replayed, ReplayFault>
    requires fit { IsFit file.now }
    requires book { IsBook (words book.now) }
    requires few { length bytes.now ≤ 2 ^ 26 }
    ensures { ConformsFile (words book.now) file.now bytes.now result }
{
    let (replayed, rest) = follow_lines(alloc, file, book, bytes)?;
    judge(rest, replayed)
}

// The book of a file tells its names, texts and processes apart, where its names are words.
fn tells_apart(file: &File)
    requires source { IsJudgeable file.now }
    requires words { AreWords file.now.names }
    ensures book { IsBook (book_of file.now) }
    ensures fit { IsFit file.now }
{
    // that no name and no text stands twice
    let _names = file.names.len();
    let _texts = file.texts.len();
}

fn names_of(alloc: Global, written: &[Named]) -> Result<List<NameId>, Memory>
    ensures { IfOk result (λ list. list ≡ names_in written.now) }
{
    let mut list = List::new(alloc);
    for name in written {
        list.push(name.name)?;
    }
    Ok(list)
}
