//! The lines that tell the causes of each event.

ghost use Rattle.std.specs.Prelude.{◌≡◌, ◌<◌, ◌+◌, ◌^◌, ◌++◌, All, IfOk, OnOk};
ghost use Rattle.accepted_orders.specs.Texts.{causes_text, order_text};

use causal_order::Order;
use chor_base::{Memory, put_bytes, put_number};
use std::alloc::Global;

/// A line for each event, and how many there are.
pub fn order_text(alloc: Global, order: &Order) -> Result<Vec<u8>, Memory>
    ensures { IfOk result (λ text. text.items ≡ order_text order.now.causes) }
{
    let mut text = Vec::new(alloc);
    for (place, causes) in order.causes.as_slice().iter().enumerate() {
        put_number(&mut text, alloc, place as u64 + 1)?;
        put_causes(&mut text, alloc, causes.as_slice())?;
        text.push(b'\n')?;
    }
    put_bytes(&mut text, b"order ".as_slice())?;
    put_number(&mut text, alloc, order.causes.len() as u64)?;
    text.push(b'\n')?;
    Ok(text)
}

// Appends the causes of an event.
fn put_causes(text: &mut Vec<u8>, alloc: Global, causes: &[u64]) -> Result<(), Memory>
    requires { All (λ cause. cause + 1 < 2 ^ 64) causes.now }
    ensures { OnOk result (text.new.items ≡ text.old.items ++ causes_text causes.now) }
{
    if causes.is_empty() {
        return put_bytes(text, b" first".as_slice());
    }
    put_bytes(text, b" after".as_slice())?;
    for cause in causes {
        text.push(b' ')?;
        put_number(text, alloc, *cause + 1)?;
    }
    Ok(())
}
