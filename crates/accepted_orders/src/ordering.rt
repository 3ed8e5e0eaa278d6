//! The order of a file's events.

ghost use Rattle.std.specs.Prelude.{◌≡◌, ◌≤◌, ◌^◌, length, IfOk, IfErr};
ghost use Rattle.chor_base.specs.Meaning.{Hosts};
ghost use Rattle.chor_host.specs.Functions.{names_of as host_names, hosts_in};
ghost use Rattle.chor_host.specs.Tables.{functions_of};
ghost use Rattle.chor_semantics.specs.Runs.{IsRun};
ghost use Rattle.program_runs.specs.Books.{book_of};
ghost use Rattle.causal_order.specs.Orders.{AreCauses};
ghost use Rattle.event_reader.specs.Known.{AreWords};
ghost use Rattle.accepted_orders.specs.Numbers.{IsNumberFault};
ghost use Rattle.accepted_orders.specs.Rearrangements.{IsCheckedSource};
ghost use Rattle.accepted_orders.specs.Sources.{OrdersSource, TellsBy};

use crate::causes_text::order_text;
use crate::fault::OrderFault;
use crate::past_text::past_text;
use crate::relation::relation_text;
use accepted_replays::accepted_events;
use causal_order::{Order, order};
use chor_base::{Event, Memory};
use chor_host::HostTable;
use chor_tree::File;
use command_words::OrderForm;
use simulation::Accepted;
use std::alloc::Global;

/// Tells the order of the events of a file on an accepted source, under a capacity of its queues if
/// there is one. `Unmatched` tells the number of the first line, from 1, that doesn't match;
/// `Beyond` the first number asked for that no event has, where all lines match. It asks the host
/// functions of the table with which the source was accepted.
pub fn order_accepted(
    alloc: Global,
    accepted: &Accepted,
    hosts: &HostTable,
    capacity: Option<u32>,
    form: OrderForm,
    bytes: &[u8],
) -> Result<Vec<u8>, OrderFault>
    requires hosts { accepted.now.typed.hosts ≡ host_names (functions_of hosts.now) }
    requires words { AreWords accepted.now.typed.file.names }
    requires few { length bytes.now ≤ 2 ^ 26 }
    ensures checked { IsCheckedSource accepted.now.typed.file }
    ensures told { OrdersSource accepted.now.typed.file (hosts_in accepted.now.typed.file.names (functions_of hosts.now)) capacity form bytes.now result }
{
    checked(accepted);
    let events = accepted_events(alloc, accepted, hosts, capacity, bytes)?;
    let order = order_of(alloc, accepted, capacity, events.as_slice())?;
    let file = accepted.typed().file();
    told(alloc, file, &order, form, events.as_slice())
}

// An accepted source is a checked one, with its endpoint programs.
fn checked(accepted: &Accepted)
    ensures { IsCheckedSource accepted.now.typed.file }
{
    let _endpoints = accepted.endpoints();
}

// The causes of the events of a run.
fn order_of(
    alloc: Global,
    accepted: &Accepted,
    capacity: Option<u32>,
    events: &[Event],
) -> Result<Order, Memory>
    requires { (hosts : Hosts) × IsRun accepted.now.typed.file hosts capacity events.now }
    ensures { IfOk result (λ order. AreCauses events.now capacity order.causes) }
{
    checked(accepted);
    accepted_files::checked_runs();
    order(alloc, events, capacity)
}

// What is told of the events of a run with these causes.
fn told(
    alloc: Global,
    file: &File,
    order: &Order,
    form: OrderForm,
    events: &[Event],
) -> Result<Vec<u8>, OrderFault>
    requires { length order.now.causes ≡ length events.now }
    ensures text { IfOk result (λ text. TellsBy order.now.causes (book_of file.now) form events.now text.items) }
    ensures beyond { IfErr result (IsNumberFault form (length events.now)) }
{
    match form {
        OrderForm::Whole => Ok(order_text(alloc, order)?),
        OrderForm::Pair(first, second) => relation_text(alloc, order, first, second),
        OrderForm::Lead(number) => past_text(alloc, file, events, order, number),
    }
}
