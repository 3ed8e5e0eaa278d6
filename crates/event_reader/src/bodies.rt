//! What a line tells after the word for its kind.

ghost use Rattle.std.specs.Prelude.{◌≡◌, IfSome};
ghost use Rattle.chor_base.specs.declared.event.Event.TheVariants as happened;
ghost use Rattle.transcript.specs.Books.{words};
ghost use Rattle.event_reader.specs.declared.kind.Kind.TheVariants as kinds;
ghost use Rattle.event_reader.specs.Known.{AreWords, HasEvent};
ghost use Rattle.event_reader.specs.Bodies.{kind_of, body};
ghost use Rattle.event_reader.specs.Fronts.{IsHeadFront, FindsHeads, HasMessage, message_text};
ghost use Rattle.event_reader.specs.Readings.{IsReading, IsAnswer};

use crate::fault::LineFault;
use crate::fields::field;
use crate::fronts::{int_before, name_before, process_before, session_before};
use crate::kind::{Content, Kind};
use crate::named::{session_of, truth_of};
use crate::numbers::int_of;
use crate::parts::parts_of;
use crate::values::{load_of, value_of};
use chor_base::{Event, Load, NameId};
use std::alloc::Global;
use transcript::Book;

// The event of this kind that is written so.
pub fn event_of(alloc: Global, kind: Kind, bytes: &[u8], book: &Book) -> Result<Event, LineFault>
    requires { AreWords (words book.now).names }
    ensures { IsAnswer (λ e. (kind_of e ≡ kind) × HasEvent (words book.now) e) (body (words book.now)) bytes.now result }
{
    match kind {
        Kind::Start => start_of(alloc, bytes, book),
        Kind::Send(content) => {
            let message = message_of(alloc, bytes, content, book)?;
            Ok(message.sent())
        }
        Kind::Recv(content) => {
            let message = message_of(alloc, bytes, content, book)?;
            Ok(message.received())
        }
        Kind::Test => match test_of(bytes, book) {
            Some(event) => Ok(event),
            None => Err(LineFault::BadLine),
        },
        Kind::Set => set_of(alloc, bytes, book),
        Kind::Show => show_of(alloc, bytes, book),
        Kind::Host => match host_of(bytes, book) {
            Some(event) => Ok(event),
            None => Err(LineFault::BadLine),
        },
    }
}

fn start_of(alloc: Global, bytes: &[u8], book: &Book) -> Result<Event, LineFault>
    requires { AreWords (words book.now).names }
    ensures { IsAnswer (λ e. (kind_of e ≡ kinds.Start) × HasEvent (words book.now) e) (body (words book.now)) bytes.now result }
{
    let Some((channel, rest)) = name_before(bytes, b' ', book) else {
        return Err(LineFault::BadLine);
    };
    let (session, rest) = field(rest, b' ');
    let Some(sid) = session_of(session) else {
        return Err(LineFault::BadLine);
    };
    let parts = parts_of(alloc, rest, book)?;
    Ok(Event::Start {
        channel,
        sid,
        parts,
    })
}

// Who acts in which session, and from which role to which.
#[derive(Clone, Copy)]
pub struct Head {
    pub pid: u32,
    pub sid: u32,
    pub from: NameId,
    pub to: NameId,
}

// The same, with a load.
#[derive(Clone, Copy)]
pub struct Message {
    pub head: Head,
    pub load: Load,
}

impl Message {
    // It is sent.
    fn sent(self) -> Event
        ensures { result ≡ happened.Send self.head.pid self.head.sid self.head.from self.head.to self.load }
    {
        Event::Send {
            pid: self.head.pid,
            sid: self.head.sid,
            from: self.head.from,
            to: self.head.to,
            load: self.load,
        }
    }

    // It is received.
    fn received(self) -> Event
        ensures { result ≡ happened.Recv self.head.pid self.head.sid self.head.from self.head.to self.load }
    {
        Event::Recv {
            pid: self.head.pid,
            sid: self.head.sid,
            from: self.head.from,
            to: self.head.to,
            load: self.load,
        }
    }
}

// What stands before the load, and what follows it.
fn head_before<'a>(bytes: &'a [u8], book: &Book) -> Option<(Head, &'a [u8])>
    requires { AreWords (words book.now).names }
    ensures found { IfSome result (IsHeadFront (words book.now) bytes.now) }
    ensures all { FindsHeads (words book.now) bytes.now result }
{
    let (pid, rest) = process_before(bytes, book)?;
    let (sid, rest) = session_before(rest)?;
    let (from, rest) = name_before(rest, b'>', book)?;
    let (to, rest) = name_before(rest, b' ', book)?;
    let head = Head { pid, sid, from, to };
    Some((head, rest))
}

// The message with a load of this kind that is written so.
fn message_of(
    alloc: Global,
    bytes: &[u8],
    content: Content,
    book: &Book,
) -> Result<Message, LineFault>
    requires { AreWords (words book.now).names }
    ensures { IsAnswer (HasMessage (words book.now) content) (message_text (words book.now)) bytes.now result }
{
    let Some((head, rest)) = head_before(bytes, book) else {
        return Err(LineFault::BadLine);
    };
    let load = load_of(alloc, rest, content, book)?;
    Ok(Message { head, load })
}

fn test_of(bytes: &[u8], book: &Book) -> Option<Event>
    requires { AreWords (words book.now).names }
    ensures { IsReading (λ e. (kind_of e ≡ kinds.Test) × HasEvent (words book.now) e) (body (words book.now)) bytes.now result }
{
    let (pid, rest) = process_before(bytes, book)?;
    let answer = truth_of(rest)?;
    Some(Event::Test { pid, answer })
}

fn set_of(alloc: Global, bytes: &[u8], book: &Book) -> Result<Event, LineFault>
    requires { AreWords (words book.now).names }
    ensures { IsAnswer (λ e. (kind_of e ≡ kinds.Set) × HasEvent (words book.now) e) (body (words book.now)) bytes.now result }
{
    let Some((pid, rest)) = process_before(bytes, book) else {
        return Err(LineFault::BadLine);
    };
    let Some((var, rest)) = name_before(rest, b' ', book) else {
        return Err(LineFault::BadLine);
    };
    let value = value_of(alloc, rest, book)?;
    Ok(Event::Set { pid, var, value })
}

fn show_of(alloc: Global, bytes: &[u8], book: &Book) -> Result<Event, LineFault>
    requires { AreWords (words book.now).names }
    ensures { IsAnswer (λ e. (kind_of e ≡ kinds.Show) × HasEvent (words book.now) e) (body (words book.now)) bytes.now result }
{
    let Some((pid, rest)) = process_before(bytes, book) else {
        return Err(LineFault::BadLine);
    };
    let value = value_of(alloc, rest, book)?;
    Ok(Event::Show { pid, value })
}

fn host_of(bytes: &[u8], book: &Book) -> Option<Event>
    requires { AreWords (words book.now).names }
    ensures { IsReading (λ e. (kind_of e ≡ kinds.Host) × HasEvent (words book.now) e) (body (words book.now)) bytes.now result }
{
    let (pid, rest) = process_before(bytes, book)?;
    let (var, rest) = name_before(rest, b' ', book)?;
    let (name, rest) = name_before(rest, b' ', book)?;
    let (left, rest) = int_before(rest)?;
    let (right, rest) = int_before(rest)?;
    let value = int_of(rest)?;
    Some(Event::Host {
        pid,
        var,
        name,
        left,
        right,
        value,
    })
}
