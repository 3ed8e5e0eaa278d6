//! `chor COMMAND ARGUMENTS`: reads the words, and ends with the status that the command gives.
#![tactic(auto)]

use chor_base::{List, Memory, Word};
use chor_cmd::{Words, chor};
use chor_host::{host_dice, host_gap, host_max, host_min, program_hosts};
use chor_io::{DiskShelf, OpenGate, OutSink};
use std::alloc::Global;
use std::env::{self, Args};
use std::io::{Error, ErrorKind};
use std::process::ExitCode;

// The system didn't give the program its words.
const NO_WORDS: u8 = 10;

// There was no memory for the words or the host functions.
const NO_MEMORY: u8 = 5;

fn main(rt: HostRuntime) -> ExitCode {
    let args = match env::args(&rt) {
        Ok(args) => args,
        Err(error) => return ExitCode::from(status_without_words(&error)),
    };
    let Ok(words) = words_of(rt.alloc(), args) else {
        return ExitCode::from(NO_MEMORY);
    };
    let Ok(hosts) = program_hosts(rt.alloc(), host_min, host_max, host_gap, host_dice) else {
        drop(words);
        return ExitCode::from(NO_MEMORY);
    };
    let mut shelf = DiskShelf::new(rt.alloc(), &rt);
    let mut out = OutSink::new(&rt);
    let status = chor(
        &rt,
        rt.alloc(),
        &words,
        &hosts,
        &mut shelf,
        &mut out,
        &OpenGate,
    );
    drop(hosts);
    drop(words);
    ExitCode::from(status.number())
}

// The status where the program can't read its words.
fn status_without_words(error: &Error) -> u8 {
    match error.kind() {
        ErrorKind::OutOfMemory => NO_MEMORY,
        _ => NO_WORDS,
    }
}

// The words of a call, without the name of the program.
fn words_of(alloc: Global, args: Args) -> Result<Words, Memory> {
    let mut items = List::new(alloc);
    for arg in args.skip(1) {
        push_word(alloc, &mut items, arg.as_bytes())?;
    }
    Ok(Words { items })
}

fn push_word(alloc: Global, items: &mut List<Word>, bytes: &[u8]) -> Result<(), Memory> {
    let word = Word::from_slice(alloc, bytes)?;
    items.push(word)
}
