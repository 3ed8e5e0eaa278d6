//! How two events stand to each other.

ghost use Rattle.std.specs.Prelude.{◌≡◌, ◌<◌, ◌++◌, ◌∷◌, [], length, IfOk, IfErr};
ghost use Rattle.command_words.specs.declared.order_form.OrderForm.TheVariants.{Pair};
ghost use Rattle.accepted_orders.specs.Numbers.{IsNumberFault};
ghost use Rattle.accepted_orders.specs.Relations.{StandBy};
ghost use Rattle.accepted_orders.specs.Sources.{TellsRelationBy};
ghost use Rattle.accepted_orders.specs.Texts.{relation_text};

use crate::fault::OrderFault;
use crate::numbers::place_of;
use causal_order::Order;
use chor_base::{Memory, put_bytes};
use std::alloc::Global;

/// How an event stands to another one of its run.
#[derive(Clone, Copy, PartialEq, Eq)]
pub enum Relation {
    /// It happens before the other one.
    Before,
    /// The other one happens before it.
    After,
    /// They are one event.
    Same,
    /// Neither happens before the other.
    Beside,
}

impl Relation {
    // Its word, in a line.
    pub fn line(self) -> &'static [u8]
        ensures { result.now ≡ relation_text self ++ 10 ∷ [] }
    {
        match self {
            Relation::Before => b"before\n".as_slice(),
            Relation::After => b"after\n".as_slice(),
            Relation::Same => b"same\n".as_slice(),
            Relation::Beside => b"beside\n".as_slice(),
        }
    }
}

/// How the events with these numbers stand to each other, in a line.
pub fn relation_text(
    alloc: Global,
    order: &Order,
    first: u64,
    second: u64,
) -> Result<Vec<u8>, OrderFault>
    ensures text { IfOk result (λ text. TellsRelationBy order.now.causes first second text.items) }
    ensures beyond { IfErr result (IsNumberFault (Pair first second) (length order.now.causes)) }
{
    let count = order.causes.len();
    let first = place_of(first, count)?;
    let second = place_of(second, count)?;
    let relation = relation_of(alloc, order, first, second)?;
    let mut text = Vec::new(alloc);
    put_bytes(&mut text, relation.line())?;
    Ok(text)
}

// How the events at these places stand to each other.
pub fn relation_of(
    alloc: Global,
    order: &Order,
    first: u64,
    second: u64,
) -> Result<Relation, Memory>
    requires first { first < length order.now.causes }
    requires second { second < length order.now.causes }
    ensures { IfOk result (StandBy order.now.causes first second) }
{
    if first == second {
        return Ok(Relation::Same);
    }
    if order.before(alloc, first, second)? {
        return Ok(Relation::Before);
    }
    if order.before(alloc, second, first)? {
        return Ok(Relation::After);
    }
    Ok(Relation::Beside)
}
