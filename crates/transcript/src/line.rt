//! One line of a transcript.

ghost use Rattle.std.specs.Prelude.{◌≡◌, ◌++◌, OnOk, OnErr, IfSome, IfNone};
ghost use Rattle.std.specs.Fmt.{signed_decimal};
ghost use Rattle.chor_base.specs.declared.event.Event.TheVariants as event;
ghost use Rattle.transcript.specs.Text.{Words, process_text, value_text, load_text, parts_text, spaced, numbers_text, said, event_text};
ghost use Rattle.transcript.specs.Phrases.{sending_verb, receiving_verb, verb_text, route_text, phrase_text, deed_text};
ghost use Rattle.transcript.specs.Closing.{lane_text};
ghost use Rattle.transcript.specs.Books.{words};
ghost use Rattle.transcript.specs.Written.{spaced_name, doing_text, host_event};

use crate::book::Book;
use chor_base::{
    Event, Load, Memory, NameId, Value, put_bytes, put_int, put_literal, put_name, put_number,
    put_truth,
};
use kept_texts::{Phrase, Verb};
use std::alloc::Global;

/// Appends the text of an event with its number, without a line's end. A process of the beginning
/// is written by its name, another as `%` and its number; what isn't in the book adds no bytes.
pub fn print_event(
    alloc: Global,
    number: u64,
    event: &Event,
    book: &Book,
    out: &mut Vec<u8>,
) -> Result<(), Memory>
    ensures ok { OnOk result (out.new.items ≡ out.old.items ++ event_text (words book.now) number event.now) }
    ensures err { OnErr result (out.new.items ≡ out.old.items) }
{
    let mut line = Vec::new(alloc);
    put_event(&mut line, alloc, number, event, book)?;
    put_bytes(out, line.as_slice())
}

// Appends the text of an event, or some of it where there is no memory.
fn put_event(
    line: &mut Vec<u8>,
    alloc: Global,
    number: u64,
    event: &Event,
    book: &Book,
) -> Result<(), Memory>
    ensures { OnOk result (line.new.items ≡ line.old.items ++ event_text (words book.now) number event.now) }
{
    put_number(line, alloc, number)?;
    put_said(line, alloc, event, book)
}

pub(crate) fn put_process(
    line: &mut Vec<u8>,
    alloc: Global,
    book: &Book,
    pid: u32,
) -> Result<(), Memory>
    ensures { OnOk result (line.new.items ≡ line.old.items ++ process_text (words book.now) pid) }
{
    match book.processes.as_slice().get(pid as usize) {
        Some(name) => put_name(line, book.names, *name),
        None => {
            line.push(b'%')?;
            put_number(line, alloc, u64::from(pid))
        }
    }
}

// Appends what is said of a process: what it does, the process and a space.
pub(crate) fn put_doing(
    line: &mut Vec<u8>,
    alloc: Global,
    book: &Book,
    deed: &[u8],
    pid: u32,
) -> Result<(), Memory>
    ensures { OnOk result (line.new.items ≡ line.old.items ++ doing_text (words book.now) deed.now pid) }
{
    put_bytes(line, deed)?;
    put_process(line, alloc, book, pid)?;
    put_bytes(line, b" ".as_slice())
}

// Appends a name after a space.
pub(crate) fn put_spaced_name(line: &mut Vec<u8>, book: &Book, name: NameId) -> Result<(), Memory>
    ensures { OnOk result (line.new.items ≡ line.old.items ++ spaced_name (words book.now) name) }
{
    put_bytes(line, b" ".as_slice())?;
    put_name(line, book.names, name)
}

// Appends the queue of a session from one role to another, after a space.
pub(crate) fn put_lane(
    line: &mut Vec<u8>,
    alloc: Global,
    lane: (u32, NameId, NameId),
    book: &Book,
) -> Result<(), Memory>
    ensures { OnOk result (line.new.items ≡ line.old.items ++ lane_text (words book.now) lane.0 lane.1 lane.2) }
{
    let (sid, from, to) = lane;
    put_bytes(line, b" #".as_slice())?;
    put_number(line, alloc, u64::from(sid))?;
    put_spaced_name(line, book, from)?;
    put_bytes(line, b">".as_slice())?;
    put_name(line, book.names, to)
}

// Appends a number. One of a single digit, as most are, is written without a look for its digits.
#[tactic(auto, using(crate::proofs::Digits::one_digit))]
fn put_number_of(line: &mut Vec<u8>, alloc: Global, number: i64) -> Result<(), Memory>
    ensures { OnOk result (line.new.items ≡ line.old.items ++ signed_decimal number) }
{
    if 0 <= number && number < 10 {
        line.push(b'0' + number.unsigned_abs() as u8)?;
        return Ok(());
    }
    put_int(line, alloc, number)
}

fn put_value(line: &mut Vec<u8>, alloc: Global, book: &Book, value: &Value) -> Result<(), Memory>
    ensures { OnOk result (line.new.items ≡ line.old.items ++ value_text (words book.now) value.now) }
{
    match *value {
        Value::Int(number) => put_number_of(line, alloc, number),
        Value::Bool(truth) => put_truth(line, truth),
        Value::Text(text) => put_literal(line, alloc, book.texts, text),
        Value::Part(sid, role) => {
            put_bytes(line, b"#".as_slice())?;
            put_number(line, alloc, u64::from(sid))?;
            put_bytes(line, b".".as_slice())?;
            put_name(line, book.names, role)
        }
    }
}

pub(crate) fn put_load(
    line: &mut Vec<u8>,
    alloc: Global,
    book: &Book,
    load: &Load,
) -> Result<(), Memory>
    ensures { OnOk result (line.new.items ≡ line.old.items ++ load_text (words book.now) load.now) }
{
    match load {
        Load::Value(value) => put_value(line, alloc, book, value),
        Load::Label(label) => put_name(line, book.names, *label),
    }
}

fn put_parts(
    line: &mut Vec<u8>,
    alloc: Global,
    book: &Book,
    parts: &[(NameId, u32)],
) -> Result<(), Memory>
    ensures { OnOk result (line.new.items ≡ line.old.items ++ parts_text (words book.now) parts.now) }
{
    for part in parts {
        put_spaced_name(line, book, part.0)?;
        put_bytes(line, b"=".as_slice())?;
        put_process(line, alloc, book, part.1)?;
    }
    Ok(())
}

// What stands for a message that is sent.
fn sending(load: &Load) -> Verb
    ensures { result ≡ sending_verb load.now }
{
    match load {
        Load::Label(_) => Verb::Pick,
        Load::Value(Value::Part(_, _)) => Verb::Give,
        Load::Value(_) => Verb::Send,
    }
}

// What stands for a message that is received.
fn receiving(load: &Load) -> Verb
    ensures { result ≡ receiving_verb load.now }
{
    match load {
        Load::Label(_) => Verb::Branch,
        Load::Value(Value::Part(_, _)) => Verb::Gain,
        Load::Value(_) => Verb::Recv,
    }
}

// What a message is: what its text has before the load, and the load.
#[derive(Clone, Copy)]
pub(crate) struct Message<'a> {
    pub phrase: Phrase,
    pub load: &'a Load,
}

// The message that an event is, if it is one.
pub(crate) fn message_of(event: &Event) -> Option<Message<'_>>
    ensures message { IfSome result (λ m. (w : Words) → said w event.now ≡ phrase_text w m.phrase ++ load_text w m.load.now) }
    ensures deed { IfNone result ((w : Words) → said w event.now ≡ deed_text w event.now) }
{
    match event {
        Event::Send {
            pid,
            sid,
            from,
            to,
            load,
        } => Some(Message {
            phrase: Phrase {
                verb: sending(load),
                pid: *pid,
                sid: *sid,
                from: *from,
                to: *to,
            },
            load,
        }),
        Event::Recv {
            pid,
            sid,
            from,
            to,
            load,
        } => Some(Message {
            phrase: Phrase {
                verb: receiving(load),
                pid: *pid,
                sid: *sid,
                from: *from,
                to: *to,
            },
            load,
        }),
        _ => None,
    }
}

// The word of a message.
fn put_verb(line: &mut Vec<u8>, verb: Verb) -> Result<(), Memory>
    ensures { OnOk result (line.new.items ≡ line.old.items ++ verb_text verb) }
{
    match verb {
        Verb::Send => put_bytes(line, b" send ".as_slice()),
        Verb::Pick => put_bytes(line, b" pick ".as_slice()),
        Verb::Give => put_bytes(line, b" give ".as_slice()),
        Verb::Recv => put_bytes(line, b" recv ".as_slice()),
        Verb::Branch => put_bytes(line, b" branch ".as_slice()),
        Verb::Gain => put_bytes(line, b" gain ".as_slice()),
    }
}

pub(crate) fn put_phrase(
    line: &mut Vec<u8>,
    alloc: Global,
    book: &Book,
    phrase: Phrase,
) -> Result<(), Memory>
    ensures { OnOk result (line.new.items ≡ line.old.items ++ phrase_text (words book.now) phrase) }
{
    put_verb(line, phrase.verb)?;
    put_route(line, alloc, book, phrase)
}

// What a message's text has between its word and its load.
fn put_route(line: &mut Vec<u8>, alloc: Global, book: &Book, phrase: Phrase) -> Result<(), Memory>
    ensures { OnOk result (line.new.items ≡ line.old.items ++ route_text (words book.now) phrase) }
{
    put_process(line, alloc, book, phrase.pid)?;
    put_lane(line, alloc, (phrase.sid, phrase.from, phrase.to), book)?;
    put_bytes(line, b" ".as_slice())
}

fn put_start(
    line: &mut Vec<u8>,
    alloc: Global,
    book: &Book,
    channel: NameId,
    sid: u32,
    parts: &[(NameId, u32)],
) -> Result<(), Memory>
    ensures { OnOk result (line.new.items ≡ line.old.items ++ said (words book.now) (event.Start channel sid parts.now)) }
{
    put_bytes(line, b" start ".as_slice())?;
    put_name(line, book.names, channel)?;
    put_bytes(line, b" #".as_slice())?;
    put_number(line, alloc, u64::from(sid))?;
    put_parts(line, alloc, book, parts)
}

// What a host call is.
#[derive(Clone, Copy)]
struct Asked {
    pid: u32,
    var: NameId,
    name: NameId,
    left: i64,
    right: i64,
    value: i64,
}

fn put_asked(line: &mut Vec<u8>, alloc: Global, book: &Book, asked: Asked) -> Result<(), Memory>
    ensures { OnOk result (line.new.items ≡ line.old.items ++ said (words book.now) (host_event asked)) }
{
    put_doing(line, alloc, book, b" host ".as_slice(), asked.pid)?;
    put_name(line, book.names, asked.var)?;
    put_spaced_name(line, book, asked.name)?;
    put_numbers(line, alloc, asked)
}

// The arguments and the answer of a host call.
fn put_numbers(line: &mut Vec<u8>, alloc: Global, asked: Asked) -> Result<(), Memory>
    ensures { OnOk result (line.new.items ≡ line.old.items ++ numbers_text asked.left asked.right asked.value) }
{
    put_spaced(line, alloc, asked.left)?;
    put_spaced(line, alloc, asked.right)?;
    put_spaced(line, alloc, asked.value)
}

fn put_spaced(line: &mut Vec<u8>, alloc: Global, number: i64) -> Result<(), Memory>
    ensures { OnOk result (line.new.items ≡ line.old.items ++ spaced number) }
{
    put_bytes(line, b" ".as_slice())?;
    put_int(line, alloc, number)
}

fn put_set(
    line: &mut Vec<u8>,
    alloc: Global,
    book: &Book,
    place: (u32, NameId),
    value: &Value,
) -> Result<(), Memory>
    ensures { OnOk result (line.new.items ≡ line.old.items ++ said (words book.now) (event.Set place.0 place.1 value.now)) }
{
    put_doing(line, alloc, book, b" set ".as_slice(), place.0)?;
    put_name(line, book.names, place.1)?;
    put_bytes(line, b" ".as_slice())?;
    put_value(line, alloc, book, value)
}

// An event without its number.
fn put_said(line: &mut Vec<u8>, alloc: Global, event: &Event, book: &Book) -> Result<(), Memory>
    ensures { OnOk result (line.new.items ≡ line.old.items ++ said (words book.now) event.now) }
{
    match message_of(event) {
        Some(message) => {
            put_phrase(line, alloc, book, message.phrase)?;
            put_load(line, alloc, book, message.load)
        }
        None => put_deed(line, alloc, event, book),
    }
}

// An event that isn't a message, without its number; of a message nothing.
pub(crate) fn put_deed(
    line: &mut Vec<u8>,
    alloc: Global,
    event: &Event,
    book: &Book,
) -> Result<(), Memory>
    ensures { OnOk result (line.new.items ≡ line.old.items ++ deed_text (words book.now) event.now) }
{
    match event {
        Event::Start {
            channel,
            sid,
            parts,
        } => put_start(line, alloc, book, *channel, *sid, parts.as_slice()),
        Event::Send { .. } | Event::Recv { .. } => Ok(()),
        Event::Test { pid, answer } => {
            put_doing(line, alloc, book, b" test ".as_slice(), *pid)?;
            put_truth(line, *answer)
        }
        Event::Set { pid, var, value } => put_set(line, alloc, book, (*pid, *var), value),
        Event::Show { pid, value } => {
            put_doing(line, alloc, book, b" show ".as_slice(), *pid)?;
            put_value(line, alloc, book, value)
        }
        Event::Host {
            pid,
            var,
            name,
            left,
            right,
            value,
        } => put_asked(
            line,
            alloc,
            book,
            Asked {
                pid: *pid,
                var: *var,
                name: *name,
                left: *left,
                right: *right,
                value: *value,
            },
        ),
    }
}
