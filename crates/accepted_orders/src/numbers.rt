//! Numbers of events.

ghost use Rattle.std.specs.Prelude.{◌≡◌, ◌<◌, ◌^◌, IfOk, IfErr};
ghost use Rattle.accepted_orders.specs.declared.fault.OrderFault.TheVariants.{Beyond};
ghost use Rattle.accepted_orders.specs.Numbers.{IsNumberOf, IsNoNumber};

use crate::fault::OrderFault;

// The place of the event with this number, among so many events.
pub fn place_of(number: u64, count: usize) -> Result<u64, OrderFault>
    ensures place { IfOk result (IsNumberOf count number) }
    ensures beyond { IfErr result (λ fault. (fault ≡ Beyond number) × IsNoNumber count number) }
{
    if number == 0 {
        return Err(OrderFault::Beyond(number));
    }
    if number > count as u64 {
        return Err(OrderFault::Beyond(number));
    }
    Ok(number - 1)
}
