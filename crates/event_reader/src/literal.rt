//! Texts between quotes.

ghost use Rattle.std.specs.Prelude.{◌≡◌, ◌≢◌, ◌<◌, ◌++◌, ◌∷◌, [], ℕ, List, length, OnOk, IfOk, IfErr, MatchOption};
ghost use Rattle.chor_base.specs.Writing.{escaped, literal_in};
ghost use Rattle.event_reader.specs.declared.fault.LineFault.TheVariants.{BadLine as NoText};
ghost use Rattle.event_reader.specs.Fronts.{IsByteFront};
ghost use Rattle.event_reader.specs.Readings.{IsAnswer};

use crate::fault::LineFault;
use chor_base::{Memory, Texts};
use std::alloc::Global;

// The text that is written so.
pub fn literal_of(alloc: Global, field: &[u8], texts: &Texts) -> Result<u32, LineFault>
    ensures { IsAnswer (λ t. t < length texts.now) (literal_in texts.now) field.now result }
{
    let Some(body) = quoted(field) else {
        return Err(LineFault::BadLine);
    };
    let text = unescaped(alloc, body)?;
    match texts.find(text.as_slice()) {
        Some(number) => Ok(number),
        None => Err(LineFault::BadLine),
    }
}

// What stands between quotes.
fn quoted(field: &[u8]) -> Option<&[u8]>
    ensures { MatchOption result ((body : List ℕ) → field.now ≢ 34 ∷ body ++ 34 ∷ []) (λ body. field.now ≡ 34 ∷ body.now ++ 34 ∷ []) }
{
    match field {
        [b'"', body @ .., b'"'] => Some(body),
        _ => None,
    }
}

// The text that is written so between quotes, with no other escapes than are needed.
fn unescaped(alloc: Global, body: &[u8]) -> Result<Vec<u8>, LineFault>
    ensures ok { IfOk result (λ text. body.now ≡ escaped text.items) }
    ensures bad { IfErr result (λ e. e ≡ NoText → (text : List ℕ) → body.now ≢ escaped text) }
{
    let mut text = Vec::new(alloc);
    let mut rest = body;
    while !rest.is_empty() {
        let Some((byte, more)) = byte_before(rest) else {
            return Err(LineFault::BadLine);
        };
        put(&mut text, byte)?;
        rest = more;
    }
    Ok(text)
}

// Adds a byte.
fn put(text: &mut Vec<u8>, byte: u8) -> Result<(), Memory>
    ensures { OnOk result (text.new.items ≡ text.old.items ++ byte ∷ []) }
{
    text.push(byte)?;
    Ok(())
}

// The byte of the text that stands first, and what follows it.
fn byte_before(bytes: &[u8]) -> Option<(u8, &[u8])>
    ensures { IsByteFront bytes.now result }
{
    let (first, rest) = bytes.split_first()?;
    match *first {
        b'\\' => escape_before(rest),
        b'"' | b'\n' => None,
        byte => Some((byte, rest)),
    }
}

// The byte that a backslash before these bytes means, and what follows it.
fn escape_before(bytes: &[u8]) -> Option<(u8, &[u8])>
    ensures { IsByteFront (92 ∷ bytes.now) result }
{
    let (first, rest) = bytes.split_first()?;
    match *first {
        b'"' => Some((b'"', rest)),
        b'\\' => Some((b'\\', rest)),
        b'n' => Some((b'\n', rest)),
        _ => None,
    }
}
