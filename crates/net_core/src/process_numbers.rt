//! How many processes there can be.

ghost use Rattle.std.specs.Prelude.{◌≡◌, ◌↔◌, IsTrue};
ghost use Rattle.net_core.specs.Steps.{most_served, AreFew};

use endpoint_code::{Channel, Endpoints};

/// Whether the numbers of processes stay below 2^32 by so many events of these programs.
pub fn are_few(endpoints: &Endpoints, events: usize) -> bool
    ensures { IsTrue result ↔ AreFew endpoints.now events }
{
    let most = most_served(endpoints.channels.as_slice());
    let Some(more) = events.checked_mul(most) else {
        return false;
    };
    let Some(all) = more.checked_add(endpoints.processes.len()) else {
        return false;
    };
    all <= u32::MAX as usize
}

// How many service roles a channel has at most.
fn most_served(channels: &[Channel]) -> usize
    ensures { result ≡ most_served channels.now }
{
    let mut most = 0;
    for channel in channels {
        most = most.max(channel.serve.len());
    }
    most
}
