//! The transcript of an event's causal past.

ghost use Rattle.std.specs.Prelude.{◌≡◌, ◌<◌, ◌+◌, ◌^◌, ◌++◌, ◌∷◌, [], All, length, IfOk, IfErr, OnOk};
ghost use Rattle.command_words.specs.declared.order_form.OrderForm.TheVariants.{Lead};
ghost use Rattle.event_orders.specs.Orders.{permuted};
ghost use Rattle.program_runs.specs.Books.{book_of};
ghost use Rattle.transcript.specs.Books.{words};
ghost use Rattle.transcript.specs.Text.{event_text, lines_from, transcript};
ghost use Rattle.transcript.specs.Written.{AreReady};
ghost use Rattle.transcript_lines.specs.declared.last.Last.TheVariants.{Limit};
ghost use Rattle.transcript_lines.specs.Last.{last_text};
ghost use Rattle.accepted_orders.specs.Numbers.{IsNumberFault};
ghost use Rattle.accepted_orders.specs.Sources.{TellsBy};

use crate::fault::OrderFault;
use crate::numbers::place_of;
use accepted_replays::names_of;
use causal_order::Order;
use chor_base::{Entry, Event, Memory, put_bytes, put_number};
use chor_tree::File;
use std::alloc::Global;
use std::slice::from_ref;
use transcript::{Book, Lines};

/// The transcript of the causal past of the event with this number.
pub fn past_text(
    alloc: Global,
    file: &File,
    events: &[Event],
    order: &Order,
    number: u64,
) -> Result<Vec<u8>, OrderFault>
    requires { length order.now.causes ≡ length events.now }
    ensures text { IfOk result (λ text. TellsBy order.now.causes (book_of file.now) (Lead number) events.now text.items) }
    ensures beyond { IfErr result (IsNumberFault (Lead number) (length events.now)) }
{
    let place = place_of(number, events.len())?;
    let past = order.lead(alloc, place)?;
    let text = transcript_of(alloc, file, events, past.as_slice())?;
    Ok(text)
}

// The events at these places, numbered from 1, and how many there are.
fn transcript_of(
    alloc: Global,
    file: &File,
    events: &[Event],
    past: &[u64],
) -> Result<Vec<u8>, Memory>
    requires { All (λ place. place < length events.now) past.now }
    ensures { IfOk result (λ text. text.items ≡ transcript (book_of file.now) (permuted events.now past.now) (last_text (Limit (length past.now)))) }
{
    let processes = names_of(alloc, file.processes.as_slice())?;
    let book = Book {
        names: &file.names,
        texts: &file.texts,
        processes: &processes,
    };
    let mut text = events_text(alloc, &book, events, past)?;
    put_bytes(&mut text, b"limit ".as_slice())?;
    put_number(&mut text, alloc, past.len() as u64)?;
    text.push(b'\n')?;
    Ok(text)
}

// The lines of the events at these places.
fn events_text(
    alloc: Global,
    book: &Book,
    events: &[Event],
    past: &[u64],
) -> Result<Vec<u8>, Memory>
    requires { All (λ place. place < length events.now) past.now }
    ensures { IfOk result (λ text. text.items ≡ lines_from (words book.now) 1 (permuted events.now past.now)) }
{
    let mut lines = Lines::new(alloc)?;
    for place in past {
        let event = &events[*place as usize];
        put_event(&mut lines, alloc, event, book)?;
    }
    Ok(lines.into_text())
}

// Appends the line of the event that comes next.
fn put_event(lines: &mut Lines, alloc: Global, event: &Event, book: &Book) -> Result<(), Memory>
    requires ready { AreReady (words book.now) lines.old }
    requires few { lines.old.count + 1 < 2 ^ 64 }
    ensures ready { OnOk result (AreReady (words book.now) lines.new) }
    ensures count { OnOk result (lines.new.count ≡ lines.old.count + 1) }
    ensures text { OnOk result (lines.new.text.items ≡ lines.old.text.items ++ event_text (words book.now) (lines.old.count + 1) event.now ++ 10 ∷ []) }
{
    let event = event.copy(alloc)?;
    let entry = Entry { worker: 0, event };
    lines.put(from_ref(&entry), book)
}
