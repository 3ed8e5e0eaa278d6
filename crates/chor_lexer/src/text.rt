//! Texts between quotes.

ghost use Rattle.std.specs.Prelude.{◌≡◌, ◌∷◌, ℕ, List, IfOk, IfSome, IfNone};
ghost use Rattle.chor_lexer.specs.Text.{IsTextOf, IsBody, IsUnclosed, escaped};
ghost use Rattle.chor_lexer.specs.Scan.{IsPart, ClosesAt, FailsAt, IsMeant};

use chor_base::Memory;
use std::alloc::Global;

// What stands at the front of the rest of a text.
#[derive(Clone, Copy)]
pub enum Part {
    // The quote that closes the text.
    Quote,
    // The end of the line or of the file, also after a backslash.
    LineEnd,
    // A byte that stands for itself.
    Plain(u8),
    // A backslash and a byte, and the byte that they stand for.
    Escape(Option<u8>),
}

// How many bytes stand before the quote that closes a text.
pub fn body_len(bytes: &[u8]) -> Option<usize>
    ensures closed { IfSome result (ClosesAt bytes.now) }
    ensures unclosed { IfNone result (IsUnclosed bytes.now) }
{
    let mut rest = bytes;
    loop {
        match part_at(rest) {
            Part::Quote => return Some(bytes.len() - rest.len()),
            Part::LineEnd => return None,
            Part::Plain(_) => rest = rest.split_at(1).1,
            Part::Escape(_) => rest = rest.split_at(2).1,
        }
    }
}

// The place of the first backslash that stands for nothing.
pub fn wrong_escape(body: &[u8]) -> Option<usize>
    requires { IsBody body.now }
    ensures wrong { IfSome result (FailsAt body.now) }
    ensures right { IfNone result (IsMeant body.now) }
{
    let mut rest = body;
    while !rest.is_empty() {
        match part_at(rest) {
            Part::Plain(_) => rest = rest.split_at(1).1,
            Part::Escape(Some(_)) => rest = rest.split_at(2).1,
            Part::Escape(None) => return Some(body.len() - rest.len()),
            Part::Quote | Part::LineEnd => unreachable!(),
        }
    }
    None
}

// The text that is written so.
pub fn text_of(alloc: Global, body: &[u8]) -> Result<Vec<u8>, Memory>
    requires { IsMeant body.now }
    ensures { IfOk result (λ text. IsTextOf body.now text.items) }
{
    let mut text = Vec::new(alloc);
    let mut rest = body;
    while !rest.is_empty() {
        match part_at(rest) {
            Part::Plain(byte) => {
                text.push(byte)?;
                rest = rest.split_at(1).1;
            }
            Part::Escape(Some(byte)) => {
                text.push(byte)?;
                rest = rest.split_at(2).1;
            }
            _ => unreachable!(),
        }
    }
    Ok(text)
}

// What stands at the front.
fn part_at(bytes: &[u8]) -> Part
    ensures { IsPart bytes.now result }
{
    let Some((first, rest)) = bytes.split_first() else {
        return Part::LineEnd;
    };
    match *first {
        b'"' => Part::Quote,
        b'\n' => Part::LineEnd,
        b'\\' => escape_at(rest),
        byte => Part::Plain(byte),
    }
}

// What a backslash before these bytes is.
fn escape_at(rest: &[u8]) -> Part
    ensures { IsPart (92 ∷ rest.now) result }
{
    match rest.first().copied() {
        None | Some(b'\n') => Part::LineEnd,
        Some(byte) => Part::Escape(escaped(byte)),
    }
}

// What a backslash and this byte stand for.
fn escaped(byte: u8) -> Option<u8>
    ensures { result ≡ escaped byte }
{
    match byte {
        b'"' => Some(b'"'),
        b'\\' => Some(b'\\'),
        b'n' => Some(b'\n'),
        _ => None,
    }
}
