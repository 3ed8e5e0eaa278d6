//! Files of cases.

use crate::calls::{Call, answer};
use crate::changes::changed;
use crate::escapes::put_escaped;
use anyhow::bail;
use chor_host::HostTable;
use std::alloc::Global;
use std::sync::Wait;
use std::thread::Threads;

// How many bytes the sink takes where nothing else is said.
const ROOM: u32 = 1 << 16;

/// The host functions of the program, and a table of none.
#[derive(Clone, Copy)]
pub struct Tables<'a> {
    pub program: &'a HostTable,
    pub empty: &'a HostTable,
}

impl<'a> Tables<'a> {
    fn of(self, has_functions: bool) -> &'a HostTable {
        if has_functions {
            self.program
        } else {
            self.empty
        }
    }
}

// What the sources of cases are made of.
#[derive(Clone, Copy)]
enum Frame<'a> {
    // Each source begins with this text.
    Head(&'a str),
    // Each source is a change of this one.
    Base(&'a str),
    // Each case is an events file beside this source.
    Source(&'a str),
}

// How cases are put to `chor`, until a line says otherwise.
#[derive(Clone, Copy)]
struct Setting<'a> {
    frame: Frame<'a>,
    has_functions: bool,
    room: u32,
    failing: u64,
    // Whether the lines of a case have escapes, and only these make line feeds.
    is_escaped: bool,
}

impl<'a> Setting<'a> {
    fn new(frame: Frame<'a>) -> Self {
        Setting {
            frame,
            has_functions: true,
            room: ROOM,
            failing: 0,
            is_escaped: false,
        }
    }

    // What a line without a command says of the cases after it, with the lines that follow it.
    fn after(self, line: &str, body: &'a str) -> anyhow::Result<Self> {
        match line {
            "head" => Ok(Setting::new(Frame::Head(body))),
            "base" => Ok(Setting::new(Frame::Base(body))),
            "source" => Ok(Setting::new(Frame::Source(body))),
            "escapes" => Ok(Setting {
                is_escaped: true,
                ..self
            }),
            "no functions" => Ok(Setting {
                has_functions: false,
                ..self
            }),
            _ => self.after_number(line),
        }
    }

    // What a line with a number says.
    fn after_number(self, line: &str) -> anyhow::Result<Self> {
        match line.split_once(' ') {
            Some(("room", number)) => Ok(Setting {
                room: number.parse()?,
                ..self
            }),
            Some(("failing", number)) => Ok(Setting {
                failing: number.parse()?,
                ..self
            }),
            _ => bail!("{line} is neither a case nor a setting"),
        }
    }

    // Puts the lines of a case, of which a title that stands alone has none.
    fn put_body(
        &self,
        bytes: &mut Vec<u8>,
        alloc: Global,
        body: Option<&str>,
    ) -> anyhow::Result<()> {
        match body {
            None => Ok(()),
            Some(body) if self.is_escaped => put_escaped(bytes, alloc, body),
            Some(body) => put_lines(bytes, body),
        }
    }

    // The source of a case with these lines.
    fn source(&self, alloc: Global, body: Option<&str>) -> anyhow::Result<Vec<u8>> {
        let mut source = Vec::new(alloc);
        match self.frame {
            Frame::Base(base) => {
                let text = changed(alloc, base, body.unwrap_or(""))?;
                source.extend_from_slice(text.as_bytes())?;
            }
            Frame::Head("") => self.put_body(&mut source, alloc, body)?,
            Frame::Head(head) => {
                put_lines(&mut source, head)?;
                self.put_body(&mut source, alloc, body)?;
            }
            Frame::Source(text) => put_lines(&mut source, text)?,
        }
        Ok(source)
    }

    // The events file of a case with these lines, which has no bytes where there is none.
    fn events(&self, alloc: Global, body: Option<&str>) -> anyhow::Result<Vec<u8>> {
        let mut events = Vec::new(alloc);
        if let Frame::Source(_) = self.frame {
            self.put_body(&mut events, alloc, body)?;
        }
        Ok(events)
    }
}

// Puts the lines of a text, each ended by a line feed.
fn put_lines(bytes: &mut Vec<u8>, text: &str) -> anyhow::Result<()> {
    for line in text.split('\n') {
        bytes.extend_from_slice(line.as_bytes())?;
        bytes.push(b'\n')?;
    }
    Ok(())
}

/// Answers all cases of a file.
pub fn answer_cases<R: Threads + Wait + Sync + Print>(
    rt: &R,
    alloc: Global,
    tables: Tables<'_>,
    text: &str,
) -> anyhow::Result<()> {
    let mut setting = Setting::new(Frame::Head(""));
    let text = text.strip_suffix('\n').unwrap_or(text);
    for section in text.split("\n=== ").skip(1) {
        let (title, body) = match section.split_once('\n') {
            Some((title, body)) => (title, Some(body)),
            None => (section, None),
        };
        if title.contains(": ") {
            answer_case(rt, alloc, tables, &setting, (title, body))?;
        } else {
            setting = setting.after(title, body.unwrap_or(""))?;
        }
    }
    Ok(())
}

// Answers a case: its title, and the lines after it, which are a source, a change of one or an events
// file.
fn answer_case<R: Threads + Wait + Sync + Print>(
    rt: &R,
    alloc: Global,
    tables: Tables<'_>,
    setting: &Setting<'_>,
    (title, body): (&str, Option<&str>),
) -> anyhow::Result<()> {
    let source = setting.source(alloc, body)?;
    let events = setting.events(alloc, body)?;
    let call = Call {
        title,
        source: source.as_slice(),
        events: events.as_slice(),
        failing: setting.failing,
        room: setting.room,
        hosts: tables.of(setting.has_functions),
    };
    answer(rt, alloc, &call)
}
