//! What a book has a name for.

ghost use Rattle.std.specs.Prelude.{◌≡◌, ℕ, Some, None, IfSome, IfNone, IsSome, slice_get};
ghost use Rattle.chor_base.specs.declared.names.NameId.{NameId as Named};
ghost use Rattle.chor_base.specs.Writing.{truth_text};
ghost use Rattle.transcript.specs.Books.{words};
ghost use Rattle.transcript.specs.Text.{name_text, process_text};
ghost use Rattle.event_reader.specs.Known.{AreWords, HasName, HasProcess, HasEndpoint, IsSmall};
ghost use Rattle.event_reader.specs.Readings.{IsReading};
ghost use Rattle.event_reader.specs.Bodies.{session_text, endpoint_text};

use crate::fields::{after, split};
use crate::numbers::small_of;
use chor_base::NameId;
use transcript::Book;

// The name that is written so.
pub fn name_of(field: &[u8], book: &Book) -> Option<NameId>
    ensures reading { IsReading (HasName (words book.now)) (name_text (words book.now)) field.now result }
    ensures only { IfSome result (λ x. (y : Named) → HasName (words book.now) y → field.now ≡ name_text (words book.now) y → x ≡ y) }
{
    // The count tells that no word stands at two places.
    let _count = book.names.len();
    book.names.find(field)
}

// The process that is written so.
pub fn process_of(field: &[u8], book: &Book) -> Option<u32>
    requires { AreWords (words book.now).names }
    ensures { IsReading (HasProcess (words book.now)) (process_text (words book.now)) field.now result }
{
    match after(field, b'%') {
        Some(digits) => later_process(small_of(digits)?, book),
        None => first_process(name_of(field, book)?, book),
    }
}

// The process of the beginning that has this name.
fn first_process(name: NameId, book: &Book) -> Option<u32>
    ensures some { IfSome result (λ p. (slice_get book.now.processes.now p ≡ Some name) × IsSmall p) }
    ensures none { IfNone result ((p : ℕ) → slice_get book.now.processes.now p ≡ Some name → ⊥) }
{
    for number in 0..book.processes.count() {
        if *book.processes.at(number as usize) == name {
            return Some(number);
        }
    }
    None
}

// The number itself, if it isn't one of the beginning.
fn later_process(number: u32, book: &Book) -> Option<u32>
    ensures some { IfSome result (λ p. (p ≡ number) × (slice_get book.now.processes.now number ≡ None)) }
    ensures none { IfNone result (IsSome (slice_get book.now.processes.now number)) }
{
    if (number as usize) < book.processes.len() {
        None
    } else {
        Some(number)
    }
}

// The truth value that is written so.
pub fn truth_of(field: &[u8]) -> Option<bool>
    ensures { IsReading (λ _. Unit {0}) truth_text field.now result }
{
    if field == b"true".as_slice() {
        Some(true)
    } else if field == b"false".as_slice() {
        Some(false)
    } else {
        None
    }
}

// The session that is written so.
pub fn session_of(field: &[u8]) -> Option<u32>
    ensures { IsReading IsSmall session_text field.now result }
{
    small_of(after(field, b'#')?)
}

// The endpoint that is written so.
pub fn endpoint_of(field: &[u8], book: &Book) -> Option<(u32, NameId)>
    ensures { IsReading (HasEndpoint (words book.now)) (endpoint_text (words book.now)) field.now result }
{
    let (session, role) = split(field, b'.')?;
    Some((session_of(session)?, name_of(role, book)?))
}
