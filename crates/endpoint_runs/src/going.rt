//! The next part of a run.

ghost use Rattle.std.specs.Prelude.{◌≡◌, IfOk, Some};
ghost use Rattle.chor_host.specs.Functions.{hosts_in, names_of};
ghost use Rattle.chor_host.specs.Tables.{functions_of};
ghost use Rattle.endpoint_code.specs.Faults.{AsksKnown, is_listed};
ghost use Rattle.endpoint_runs.specs.InParts.{Continues, closed_after};

use crate::parts::Run;
use crate::run::Closed;
use chor_base::Memory;
use chor_host::HostTable;
use net_core::Picked;

// How many events a part has that isn't the last, at least.
const PART: u64 = 8192;

// How many events a part has for each process, at least: before it, each process is looked at.
const TURNS: u64 = 16;

impl Run<'_> {
    /// Forgets the part made last and makes the next one. Tells how the run is closed by it; none where
    /// it goes on.
    pub fn go_on(&mut self, hosts: &HostTable) -> Result<Option<Closed>, Memory>
        requires { AsksKnown (is_listed (names_of (functions_of hosts.now)) self.old.network.endpoints) self.old.network.endpoints }
        ensures { IfOk result (λ closed. Continues (hosts_in self.old.network.endpoints.names (functions_of hosts.now)) self.old closed self.new) }
    {
        self.before += self.network.history().len() as u64;
        self.network.forget();
        let left = self.schedule.steps - self.before;
        let part = left.min(PART.max(u64::from(self.network.count()) * TURNS));
        let seed = self.schedule.seed + self.before;
        let picked = self.network.run_picked(hosts, seed, part);
        let closed = closed_after(picked, part < left)?;
        Ok(closed)
    }
}

// How a run is closed after a part that ended so; it goes on from the limit of a part if more is asked
// for.
fn closed_after(picked: Picked, more: bool) -> Result<Option<Closed>, Memory>
    ensures { IfOk result (λ closed. closed_after picked more ≡ Some closed) }
{
    match picked {
        Picked::Limit if more => Ok(None),
        Picked::Limit => Ok(Some(Closed::Limit)),
        Picked::Ended => Ok(Some(Closed::Ended)),
        Picked::Stuck(pid, why) => Ok(Some(Closed::Stuck(pid, why))),
        Picked::Memory => Err(Memory),
    }
}
