//! Values and loads of messages.

ghost use Rattle.std.specs.Prelude.{◌≡◌};
ghost use Rattle.transcript.specs.Books.{words};
ghost use Rattle.transcript.specs.Text.{value_text, load_text};
ghost use Rattle.event_reader.specs.Known.{HasValue, HasLoad};
ghost use Rattle.event_reader.specs.Bodies.{HasPlain, content_of};
ghost use Rattle.event_reader.specs.Readings.{IsAnswer};

use crate::fault::LineFault;
use crate::kind::Content;
use crate::literal::literal_of;
use crate::named::{endpoint_of, name_of, truth_of};
use crate::numbers::int_of;
use chor_base::{Load, Value};
use std::alloc::Global;
use transcript::Book;

// The value that is written so.
pub fn value_of(alloc: Global, field: &[u8], book: &Book) -> Result<Value, LineFault>
    ensures { IsAnswer (HasValue (words book.now)) (value_text (words book.now)) field.now result }
{
    match endpoint_of(field, book) {
        Some((session, role)) => Ok(Value::Part(session, role)),
        None => plain_of(alloc, field, book),
    }
}

// The value that is written so, which is no endpoint.
fn plain_of(alloc: Global, field: &[u8], book: &Book) -> Result<Value, LineFault>
    ensures { IsAnswer (HasPlain (words book.now)) (value_text (words book.now)) field.now result }
{
    if let Some(number) = int_of(field) {
        return Ok(Value::Int(number));
    }
    if let Some(truth) = truth_of(field) {
        return Ok(Value::Bool(truth));
    }
    let text = literal_of(alloc, field, book.texts)?;
    Ok(Value::Text(text))
}

// The load of this kind that is written so.
pub fn load_of(
    alloc: Global,
    field: &[u8],
    content: Content,
    book: &Book,
) -> Result<Load, LineFault>
    ensures { IsAnswer (λ l. (content_of l ≡ content) × HasLoad (words book.now) l) (load_text (words book.now)) field.now result }
{
    match content {
        Content::Value => {
            let value = plain_of(alloc, field, book)?;
            Ok(Load::Value(value))
        }
        Content::Label => match name_of(field, book) {
            Some(label) => Ok(Load::Label(label)),
            None => Err(LineFault::BadLine),
        },
        Content::Endpoint => match endpoint_of(field, book) {
            Some((session, role)) => Ok(Load::Value(Value::Part(session, role))),
            None => Err(LineFault::BadLine),
        },
    }
}
