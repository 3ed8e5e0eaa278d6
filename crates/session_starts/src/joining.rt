//! Starts of sessions.

ghost use Rattle.std.specs.Prelude.{ℕ, ◌≡◌, ◌<◌, map, All, length, OnOk, true, slice_get};
ghost use Rattle.endpoint_code.specs.Network.{place_at};
ghost use Rattle.endpoint_code.specs.NetworkRuns.{joins_there};
ghost use Rattle.endpoint_code.specs.Faults.{IsFaultless};
ghost use Rattle.endpoint_machine.specs.Bound.{IsBound};
ghost use Rattle.session_starts.specs.Machines.{standing_of};
ghost use Rattle.session_starts.specs.Machines.{number_of};
ghost use Rattle.session_starts.specs.Starts.{AllJoin, AreApart, reserved_in, Joined, JoinsOne};

use chor_base::{Memory, NameId};
use endpoint_code::Endpoints;
use endpoint_machine::Machine;

// Takes memory for the next event of each process of a start.
pub fn reserve_sessions(
    endpoints: &Endpoints,
    machines: &mut [Machine],
    parts: &[(NameId, u32)],
) -> Result<(), Memory>
    requires faultless { IsFaultless endpoints.now }
    requires bound { All (IsBound endpoints.now) (map standing_of machines.old) }
    requires within { All (λ q. q.1 < length machines.old) parts.now }
    ensures standing { map standing_of machines.new ≡ map standing_of machines.old }
    ensures numbers { map number_of machines.new ≡ map number_of machines.old }
    ensures kept { (p : ℕ) → reserved_in endpoints.now machines.old p ≡ true → reserved_in endpoints.now machines.new p ≡ true }
    ensures ok { OnOk result (All (λ q. reserved_in endpoints.now machines.new q.1 ≡ true) parts.now) }
{
    for part in parts {
        let machine = &mut machines[part.1 as usize];
        machine.reserve(endpoints)?;
    }
    Ok(())
}

// Lets each process of a start join its session.
pub fn join_all(
    endpoints: &Endpoints,
    machines: &mut [Machine],
    channel: NameId,
    sid: u32,
    parts: &[(NameId, u32)],
)
    requires faultless { IsFaultless endpoints.now }
    requires bound { All (IsBound endpoints.now) (map standing_of machines.old) }
    requires joins { AllJoin endpoints.now (map standing_of machines.old) channel parts.now }
    requires room { All (λ q. reserved_in endpoints.now machines.old q.1 ≡ true) parts.now }
    requires apart { AreApart parts.now }
    ensures joined { Joined endpoints.now channel sid (map standing_of machines.old) parts.now (map standing_of machines.new) }
    ensures bound { All (IsBound endpoints.now) (map standing_of machines.new) }
    ensures numbers { map number_of machines.new ≡ map number_of machines.old }
{
    for part in parts {
        join_one(endpoints, machines, channel, sid, *part);
    }
}

// Lets a process join a session in a role.
fn join_one(
    endpoints: &Endpoints,
    machines: &mut [Machine],
    channel: NameId,
    sid: u32,
    part: (NameId, u32),
)
    requires faultless { IsFaultless endpoints.now }
    requires bound { All (IsBound endpoints.now) (map standing_of machines.old) }
    requires joins { joins_there (place_at endpoints.now (slice_get (map standing_of machines.old) part.1)) channel part.0 ≡ true }
    requires room { reserved_in endpoints.now machines.old part.1 ≡ true }
    ensures put { JoinsOne endpoints.now channel part.0 sid part.1 machines.old machines.new }
    ensures bound { All (IsBound endpoints.now) (map standing_of machines.new) }
    ensures numbers { map number_of machines.new ≡ map number_of machines.old }
{
    let machine = &mut machines[part.1 as usize];
    machine.joined(endpoints, sid);
}
