//! The lines of a run.

ghost use Rattle.std.specs.Prelude.{◌≡◌, ◌<◌, ◌+◌, ◌^◌, ◌++◌, ◌∷◌, [], IfOk, OnOk, OnErr, length, map};
ghost use Rattle.std.specs.Fmt.{decimal};
ghost use Rattle.kept_texts.specs.Kept.{AreTextsOf};
ghost use Rattle.transcript.specs.Written.{AreReady};
ghost use Rattle.transcript.specs.Text.{Words, event_text, said, lines_from};
ghost use Rattle.transcript.specs.Books.{words};
ghost use Rattle.transcript.specs.Phrases.{phrase_text};

use crate::book::Book;
use crate::line::{message_of, put_deed, put_load, put_phrase};
use chor_base::{Entry, Event, Memory, put_bytes, put_number};
use kept_texts::{Phrase, Phrases};
use std::alloc::Global;

/// Appends the texts of events, which are numbered from 1, each ended by a line feed. The workers
/// that made them aren't written.
pub fn print_events(
    alloc: Global,
    events: &[Entry],
    book: &Book,
    out: &mut Vec<u8>,
) -> Result<(), Memory>
    ensures ok { OnOk result (out.new.items ≡ out.old.items ++ lines_from (words book.now) 1 (map (λ entry. entry.event) events.now)) }
    ensures err { OnErr result (out.new.items ≡ out.old.items) }
{
    let text = text_of(alloc, events, book)?;
    if out.is_empty() {
        // nothing is copied
        *out = text;
        Ok(())
    } else {
        put_bytes(out, text.as_slice())
    }
}

// The lines of events, numbered from 1.
fn text_of(alloc: Global, events: &[Entry], book: &Book) -> Result<Vec<u8>, Memory>
    ensures { IfOk result (λ text. text.items ≡ lines_from (words book.now) 1 (map (λ entry. entry.event) events.now)) }
{
    let mut lines = Lines::new(alloc)?;
    lines.put(events, book)?;
    Ok(lines.into_text())
}

/// The lines of a run whose events come in parts, numbered from 1, each ended by a line feed.
#[derive(Drop)]
pub struct Lines {
    text: Vec<u8>,
    // How many lines there are.
    count: u64,
    // The digits of that number.
    digits: Vec<u8>,
    phrases: Phrases,
}

impl Lines {
    /// No lines yet.
    pub fn new(alloc: Global) -> Result<Lines, Memory>
        ensures text { IfOk result (λ lines. lines.text.items ≡ []) }
        ensures count { IfOk result (λ lines. lines.count ≡ 0) }
        ensures ready { IfOk result (λ lines. (w : Words) → AreReady w lines) }
    {
        Lines::after(alloc, 0)
    }

    /// No lines yet. So many stand elsewhere, and the next one is numbered on from them.
    pub fn after(alloc: Global, count: u64) -> Result<Lines, Memory>
        ensures text { IfOk result (λ lines. lines.text.items ≡ []) }
        ensures count { IfOk result (λ lines. lines.count ≡ count) }
        ensures ready { IfOk result (λ lines. (w : Words) → AreReady w lines) }
    {
        let mut digits = Vec::new(alloc);
        put_number(&mut digits, alloc, count)?;
        Ok(Lines {
            text: Vec::new(alloc),
            count,
            digits,
            phrases: Phrases::new(alloc, 0)?,
        })
    }

    /// How many lines there are.
    pub fn count(&self) -> u64
        ensures { result ≡ self.now.count }
    {
        self.count
    }

    /// The bytes of all lines so far.
    pub fn as_slice(&self) -> &[u8]
        ensures { result.now ≡ self.now.text.items }
    {
        self.text.as_slice()
    }

    /// The bytes of all lines.
    pub fn into_text(self) -> Vec<u8>
        ensures { result.items ≡ self.text.items }
    {
        self.text
    }

    /// Appends the lines of the events that come next. The workers that made them aren't written.
    pub fn put(&mut self, events: &[Entry], book: &Book) -> Result<(), Memory>
        requires ready { AreReady (words book.now) self.old }
        requires few { self.old.count + length events.now < 2 ^ 64 }
        ensures ready { OnOk result (AreReady (words book.now) self.new) }
        ensures count { OnOk result (self.new.count ≡ self.old.count + length events.now) }
        ensures text { OnOk result (self.new.text.items ≡ self.old.text.items ++ lines_from (words book.now) (self.old.count + 1) (map (λ entry. entry.event) events.now)) }
    {
        self.phrases.fit(events.len())?;
        for entry in events {
            self.put_line(&entry.event, book)?;
        }
        Ok(())
    }

    // Appends the line of the event that comes next.
    fn put_line(&mut self, event: &Event, book: &Book) -> Result<(), Memory>
        requires ready { AreReady (words book.now) self.old }
        requires few { self.old.count + 1 < 2 ^ 64 }
        ensures ready { OnOk result (AreReady (words book.now) self.new) }
        ensures count { OnOk result (self.new.count ≡ self.old.count + 1) }
        ensures text { OnOk result (self.new.text.items ≡ self.old.text.items ++ event_text (words book.now) (self.old.count + 1) event.now ++ 10 ∷ []) }
    {
        count_on(&mut self.digits, self.count)?;
        self.count += 1;
        put_bytes(&mut self.text, self.digits.as_slice())?;
        put_said(&mut self.text, &mut self.phrases, event, book)?;
        self.text.push(b'\n')?;
        Ok(())
    }
}

// The digits of a number become those of the next one, mostly by the last digit alone.
#[tactic(auto, using(crate::proofs::Digits::has_last, crate::proofs::Digits::counted_on))]
fn count_on(digits: &mut Vec<u8>, number: u64) -> Result<(), Memory>
    requires fits { number + 1 < 2 ^ 64 }
    requires digits { digits.old.items ≡ decimal number }
    ensures { OnOk result (digits.new.items ≡ decimal (number + 1)) }
{
    if number % 10 < 9 {
        let last = digits.len() - 1;
        digits[last] = b'1' + (number % 10) as u8;
        Ok(())
    } else {
        let alloc = *digits.allocator();
        digits.clear();
        put_number(digits, alloc, number + 1)
    }
}

// Appends an event without its number.
fn put_said(
    lines: &mut Vec<u8>,
    phrases: &mut Phrases,
    event: &Event,
    book: &Book,
) -> Result<(), Memory>
    requires { AreTextsOf (phrase_text (words book.now)) phrases.old.slots.items }
    ensures kept { OnOk result (AreTextsOf (phrase_text (words book.now)) phrases.new.slots.items) }
    ensures ok { OnOk result (lines.new.items ≡ lines.old.items ++ said (words book.now) event.now) }
{
    let alloc = *lines.allocator();
    match message_of(event) {
        Some(message) => {
            put_kept(lines, phrases, message.phrase, book)?;
            put_load(lines, alloc, book, message.load)
        }
        None => put_deed(lines, alloc, event, book),
    }
}

// Appends the text of a phrase, which is kept from then on.
fn put_kept(
    lines: &mut Vec<u8>,
    phrases: &mut Phrases,
    phrase: Phrase,
    book: &Book,
) -> Result<(), Memory>
    requires { AreTextsOf (phrase_text (words book.now)) phrases.old.slots.items }
    ensures kept { OnOk result (AreTextsOf (phrase_text (words book.now)) phrases.new.slots.items) }
    ensures ok { OnOk result (lines.new.items ≡ lines.old.items ++ phrase_text (words book.now) phrase) }
{
    match phrases.text(phrase) {
        Some(text) => put_bytes(lines, text),
        None => put_anew(lines, phrases, phrase, book),
    }
}

// Appends the text of a phrase that wasn't kept, and keeps it.
#[inline(never)]
fn put_anew(
    lines: &mut Vec<u8>,
    phrases: &mut Phrases,
    phrase: Phrase,
    book: &Book,
) -> Result<(), Memory>
    requires { AreTextsOf (phrase_text (words book.now)) phrases.old.slots.items }
    ensures kept { OnOk result (AreTextsOf (phrase_text (words book.now)) phrases.new.slots.items) }
    ensures ok { OnOk result (lines.new.items ≡ lines.old.items ++ phrase_text (words book.now) phrase) }
{
    let alloc = *lines.allocator();
    let start = lines.len();
    put_phrase(lines, alloc, book, phrase)?;
    phrases.keep(phrase, &lines.as_slice()[start..])
}
