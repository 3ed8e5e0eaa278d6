//! One call of `chor`, and what it answers.

use chor_base::{List, Word};
use chor_cmd::{Status, Words, chor};
use chor_host::HostTable;
use chor_io::{MemoryShelf, MemorySink, OpenGate};
use std::alloc::Global;
use std::sync::Wait;
use std::thread::Threads;

/// A call: its title, of which the words of the command line stand before `: `, the bytes of the files
/// on the shelf, whose names are `FILE` and `EVENTS`, the number of the call of the shelf that fails,
/// counted from 1, or 0, how many bytes the sink takes, and the host functions.
#[derive(Clone, Copy)]
pub struct Call<'a> {
    pub title: &'a str,
    pub source: &'a [u8],
    pub events: &'a [u8],
    pub failing: u64,
    pub room: u32,
    pub hosts: &'a HostTable,
}

// What a call answers.
#[derive(Drop)]
struct Answered {
    status: Status,
    out: MemorySink,
}

/// The words of a command line, between which there is one space each.
pub fn words_of(alloc: Global, line: &str) -> anyhow::Result<Words> {
    let mut items = List::new(alloc);
    if line.is_empty() {
        return Ok(Words { items });
    }
    for word in line.split(' ') {
        let word = Word::from_slice(alloc, word.as_bytes())?;
        items.push(word)?;
    }
    Ok(Words { items })
}

// A file of this name with these bytes.
fn file_of(alloc: Global, name: &[u8], bytes: &[u8]) -> anyhow::Result<(Word, Word)> {
    Ok((
        Word::from_slice(alloc, name)?,
        Word::from_slice(alloc, bytes)?,
    ))
}

// The shelf of a call.
fn shelf_of(alloc: Global, call: &Call<'_>) -> anyhow::Result<MemoryShelf> {
    let fails = List::from_slice(alloc, [call.failing].as_slice())?;
    let mut files = List::new(alloc);
    files.push(file_of(alloc, b"FILE".as_slice(), call.source)?)?;
    files.push(file_of(alloc, b"EVENTS".as_slice(), call.events)?)?;
    Ok(MemoryShelf::new(alloc, files, fails))
}

// What a call answers with the words of this line.
fn answer_to<R: Threads + Wait + Sync>(
    rt: &R,
    alloc: Global,
    call: &Call<'_>,
    line: &str,
) -> anyhow::Result<Answered> {
    let words = words_of(alloc, line)?;
    let mut shelf = shelf_of(alloc, call)?;
    let mut out = MemorySink::new(alloc, call.room, List::new(alloc))?;
    let status = chor(
        rt, alloc, &words, call.hosts, &mut shelf, &mut out, &OpenGate,
    );
    Ok(Answered { status, out })
}

// The words of a command line, or of two.
fn line_of(title: &str) -> &str {
    match title.split_once(": ") {
        Some((line, _)) => line,
        None => title,
    }
}

// What a command line answers, or two with ` | ` between them: what the first writes is the second's `FILE`.
fn piped<R: Threads + Wait + Sync>(
    rt: &R,
    alloc: Global,
    call: &Call<'_>,
    line: &str,
) -> anyhow::Result<Answered> {
    let Some((first, last)) = line.split_once(" | ") else {
        return answer_to(rt, alloc, call, line);
    };
    let written = answer_to(rt, alloc, call, first)?;
    let fed = Call {
        source: written.out.bytes(),
        ..*call
    };
    answer_to(rt, alloc, &fed, last)
}

/// Writes the title of a call, the number of its status and its text. Where ` > ` stands in its line,
/// what the words before it write is the file `EVENTS` of the words after it, whose `FILE` is the case's
/// source again.
pub fn answer<R: Threads + Wait + Sync + Print>(
    rt: &R,
    alloc: Global,
    call: &Call<'_>,
) -> anyhow::Result<()> {
    let line = line_of(call.title);
    let Some((first, last)) = line.split_once(" > ") else {
        return tell(rt, call.title, &piped(rt, alloc, call, line)?);
    };
    let written = piped(rt, alloc, call, first)?;
    let logged = Call {
        events: written.out.bytes(),
        ..*call
    };
    tell(rt, call.title, &answer_to(rt, alloc, &logged, last)?)
}

// Writes a title, the number of a status and a text.
fn tell(rt: &impl Print, title: &str, answer: &Answered) -> anyhow::Result<()> {
    println!(rt; "=== {title}")?;
    println!(rt; "status {}", answer.status.number())?;
    let text = str::from_utf8(answer.out.bytes()).unwrap_or("(bytes that are no UTF-8)\n");
    print!(rt; "{text}")?;
    if !text.is_empty() && !text.ends_with('\n') {
        println!(rt; "")?;
    }
    Ok(())
}
