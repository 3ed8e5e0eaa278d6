//! Writing the text with which a call ends.

ghost use Rattle.std.specs.Prelude.{◌≡◌, ◌++◌, IfOk, OnOk, IsTrue, ⊤};
ghost use Rattle.chor_cmd.specs.Endings.{HasWritten};
ghost use Rattle.chor_cmd.specs.Outputs.{line_naming, refused_line, who_told};
ghost use Rattle.chor_cmd.specs.Rows.{Exactly};
ghost use Rattle.chor_cmd.specs.Status.{comes_with_text};
ghost use Rattle.chor_cmd.specs.Stops.{AnswerSays, StopSays};

use crate::ending::{Ending, Stop};
use crate::status::Status;
use chor_base::{Memory, Refusal, Word, put_bytes, put_number};
use chor_io::{Put, Sink};
use std::alloc::Global;

/// Writes what a command has made, or one line that says why it stopped, and answers the status with
/// which the call ends.
pub fn finish<K: Sink>(alloc: Global, out: &mut K, answer: Result<Ending, Stop<'_>>) -> Status
    ensures { HasWritten (AnswerSays answer.entry) ⊤ ⊥ (K.state out.old) (K.state out.new) result }
{
    match answer {
        Ok(ending) => write(out, ending.text.as_slice(), ending.status),
        Err(stop) => tell_stop(alloc, out, &stop),
    }
}

/// Writes one line that says why a command stopped, and answers the status with which the call ends.
/// Nothing is written where memory ran out.
pub fn tell_stop<K: Sink>(alloc: Global, out: &mut K, stop: &Stop<'_>) -> Status
    ensures { HasWritten (StopSays stop.now) ⊤ ⊥ (K.state out.old) (K.state out.new) result }
{
    match ending_of(alloc, stop) {
        Ok(ending) => write(out, ending.text.as_slice(), ending.status),
        Err(Memory) => Status::Memory,
    }
}

/// Writes the text with which a call ends, and answers the status.
#[tactic(auto, using(crate::proofs::Written::wrote_all, crate::proofs::Written::wrote_some))]
pub fn write<K: Sink>(out: &mut K, text: &[u8], status: Status) -> Status
    requires { IsTrue (comes_with_text status) }
    ensures { HasWritten (Exactly status text.now) ⊥ ⊥ (K.state out.old) (K.state out.new) result }
{
    match out.put(text) {
        Put::All => status,
        Put::Failed => Status::WriteFault,
    }
}

// The line and the status of a call that stopped.
fn ending_of(alloc: Global, stop: &Stop<'_>) -> Result<Ending, Memory>
    ensures { IfOk result (λ ending. StopSays stop.now ending.status ending.text.items) }
{
    let (text, status) = match stop {
        Stop::Refused(refusal) => (refused_line(alloc, refusal)?, Status::Refused),
        Stop::ReadFault(name) => (
            naming_line(alloc, b"read fault ".as_slice(), name)?,
            Status::ReadFault,
        ),
        Stop::TooLarge(name) => (
            naming_line(alloc, b"too large ".as_slice(), name)?,
            Status::TooLarge,
        ),
        Stop::Memory => return Err(Memory),
    };
    Ok(Ending { text, status })
}

fn naming_line(alloc: Global, what: &[u8], name: &Word) -> Result<Vec<u8>, Memory>
    ensures { IfOk result (λ line. line.items ≡ line_naming what.now name.now) }
{
    let mut line = what.to_vec(alloc)?;
    line.extend_from_slice(name.as_slice())?;
    line.push(b'\n')?;
    Ok(line)
}

fn refused_line(alloc: Global, refusal: &Refusal) -> Result<Vec<u8>, Memory>
    ensures { IfOk result (λ line. line.items ≡ refused_line refusal.now) }
{
    let mut line = b"refused ".to_vec(alloc)?;
    put_bytes(&mut line, refusal.rule.name())?;
    put_bytes(&mut line, b" ".as_slice())?;
    put_number(&mut line, alloc, u64::from(refusal.place.line))?;
    put_bytes(&mut line, b":".as_slice())?;
    put_number(&mut line, alloc, u64::from(refusal.place.col))?;
    put_who(&mut line, &refusal.who)?;
    put_bytes(&mut line, b"\n".as_slice())?;
    Ok(line)
}

// A space and the name of the process or role, where there is one.
fn put_who(line: &mut Vec<u8>, who: &Option<Word>) -> Result<(), Memory>
    ensures { OnOk result (line.new.items ≡ line.old.items ++ who_told who.now) }
{
    match who {
        None => Ok(()),
        Some(name) => {
            put_bytes(line, b" ".as_slice())?;
            put_bytes(line, name.as_slice())
        }
    }
}
