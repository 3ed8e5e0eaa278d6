//! Tests of the commands. Each case of the files that the file `cases` lists is put to `chor`, and the
//! answer is written: the case's title, the status's number, and the text. The file `stdout` of this
//! crate has the right answers, worked out by hand.
//!
//! A file of cases begins with lines that say what it is about. A line `=== WORDS: NAME` begins a case:
//! the words of the command line, in which `FILE` is the case's source, and what the case shows. Where
//! ` | ` stands between two command lines, what the first writes is the second's `FILE`; where ` > `
//! stands between two, it is the second's `EVENTS`. The lines after it, up to the next `===`, are the
//! source. What stands after a line `=== head` comes before each source of that file. What stands after
//! a line `=== base` is a source of which the cases after it are changes: the text of lines that begin
//! with `- ` stands in it once, and the text of the lines with `+ ` that follow comes in its place.
//! What stands after a line `=== source` is the source of the cases after it, and the lines of these
//! cases are a file of events, whose name is `EVENTS`.
//!
//! Further lines say how the cases after them are put, up to the next of the three lines above. After
//! `=== room N` the sink takes N bytes, after `=== failing N` the shelf's call number N fails, and after
//! `=== no functions` there are no host functions. After `=== escapes` the lines of a case are the
//! bytes of what they spell: `\n`, `\r`, `\x` with two digits to the base 16, and for `\{N TEXT\}` the text
//! N times, where `\#` is the number of the turn; a line of the file of cases is no line of the
//! source then.
//!
//! The folder `worked` has copies of the files of `examples`, which are held against the worked texts.
#![tactic(auto)]

use crate::cases::{Tables, answer_cases};
use crate::gates::answer_gates;
use crate::worked_texts::answer_worked;
use chor_host::{HostTable, host_dice, host_gap, host_max, host_min, program_hosts};
use std::alloc::{Alloc, Global};
use std::fs::{self, Files};
use std::sync::Wait;
use std::thread::Threads;

mod calls;
mod cases;
mod changes;
mod escapes;
mod gates;
mod worked_texts;

fn main(rt: HostRuntime) -> anyhow::Result<()> {
    let hosts = program_hosts(rt.alloc(), host_min, host_max, host_gap, host_dice)?;
    let answered = answer_all(&rt, rt.alloc(), &hosts);
    drop(hosts);
    answered
}

// The cases of the files that are listed, and the worked texts.
fn answer_all<R: Threads + Wait + Sync + Print + Files + Alloc>(
    rt: &R,
    alloc: Global,
    hosts: &HostTable,
) -> anyhow::Result<()> {
    let empty = HostTable::new(alloc);
    let tables = Tables {
        program: hosts,
        empty: &empty,
    };
    answer_listed(rt, alloc, tables)?;
    println!(rt; "##### gates")?;
    answer_gates(rt, alloc, hosts)?;
    println!(rt; "##### worked")?;
    answer_worked(rt, alloc)
}

fn answer_listed<R: Threads + Wait + Sync + Print + Files + Alloc>(
    rt: &R,
    alloc: Global,
    tables: Tables<'_>,
) -> anyhow::Result<()> {
    let index = fs::read_to_string(rt, "cases")?;
    for name in index.lines() {
        answer_file(rt, alloc, tables, name)?;
    }
    Ok(())
}

fn answer_file<R: Threads + Wait + Sync + Print + Files + Alloc>(
    rt: &R,
    alloc: Global,
    tables: Tables<'_>,
    name: &str,
) -> anyhow::Result<()> {
    let text = fs::read_to_string(rt, name)?;
    println!(rt; "##### {name}")?;
    answer_cases(rt, alloc, tables, text.as_str())
}
