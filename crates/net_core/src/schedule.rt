//! Runs by the pick rule.

ghost use Rattle.std.specs.Prelude.{◌≡◌, ◌≢◌, ◌<◌, ◌≤◌, ◌+◌, ◌-◌, ◌^◌, length, None, Some, ◌↔◌, true, false, slice_get};
ghost use Rattle.chor_host.specs.Functions.{hosts_in, names_of};
ghost use Rattle.chor_host.specs.Tables.{functions_of};
ghost use Rattle.endpoint_code.specs.Faults.{AsksKnown, is_listed};
ghost use Rattle.endpoint_code.specs.NetworkRuns.{all_ended, none_can_step};
ghost use Rattle.endpoint_code.specs.Scheduled.{listed, picked, first_waiting};
ghost use Rattle.net_core.specs.Steps.{FitsMore};
ghost use Rattle.net_core.specs.Picks.{waiting_at, Runs, RunsOrGoesOn, IsStuck, ClosesSo};

use crate::answer::Picked;
use crate::candidates::Candidates;
use crate::few::Few;
use crate::network::Network;
use crate::parts::place_of_pick;
use crate::scheduler::Scheduler;
use chor_host::HostTable;

// Up to how many processes a look at each of them costs less than to keep who may be picked.
const FEW: u32 = 4;

impl<'a> Network<'a> {
    // How many events there are.
    pub(crate) fn events(&self) -> u64
        ensures events { result ≡ length self.now.history }
        ensures few { result < 2 ^ 63 }
    {
        self.history().len() as u64
    }

    // How many processes the pick rule may take.
    fn listed_count(&self) -> u64
        ensures count { result ≡ length (listed self.now.endpoints self.now.capacity self.now.state) }
        ensures none { result ≡ 0 → none_can_step self.now.endpoints self.now.capacity self.now.state self.now.state.machines ≡ true }
    {
        let mut count = 0;
        for pid in 0..self.count() {
            if self.is_listed(pid, self.head(pid)) {
                count += 1;
            }
        }
        count
    }

    // The process at a place among those that the pick rule may take.
    fn listed_at(&self, place: u64) -> Option<u32>
        ensures { result ≡ slice_get (listed self.now.endpoints self.now.capacity self.now.state) place }
    {
        let mut left = place;
        for pid in 0..self.count() {
            if self.is_listed(pid, self.head(pid)) {
                if left == 0 {
                    return Some(pid);
                }
                left -= 1;
            }
        }
        None
    }

    /// The process that the pick rule takes: of those that can step, in order, number
    /// `(seed + events so far) mod count`. Of those that join, only one in its channel's first
    /// active role is counted.
    pub fn pick(&self, seed: u64) -> Option<u32>
        requires { seed < 2 ^ 33 }
        ensures pick { result ≡ picked self.now.endpoints self.now.capacity seed (length self.now.history) self.now.state }
        ensures none { (result ≡ None) ↔ (none_can_step self.now.endpoints self.now.capacity self.now.state self.now.state.machines ≡ true) }
    {
        let count = self.listed_count();
        if count == 0 {
            return None;
        }
        self.listed_at(place_of_pick(seed, self.events(), count))
    }

    // The first process that hasn't ended.
    fn first_unended(&self) -> Option<u32>
        ensures { first_waiting self.now.endpoints self.now.capacity self.now.state ≡ waiting_at self.now.endpoints self.now.capacity self.now.state result }
    {
        for pid in 0..self.count() {
            if !self.ended(pid) {
                return Some(pid);
            }
        }
        None
    }

    // How a run is closed where no process can step.
    pub(crate) fn stuck(&self) -> Picked
        requires unended { all_ended self.now.endpoints self.now.state.machines ≡ false }
        requires none { none_can_step self.now.endpoints self.now.capacity self.now.state self.now.state.machines ≡ true }
        ensures { IsStuck self.now.endpoints self.now.capacity self.now.state result }
    {
        let Some(pid) = self.first_unended() else {
            unreachable!()
        };
        let Some(why) = self.waiting(pid, self.head(pid)) else {
            unreachable!()
        };
        Picked::Stuck(pid, why)
    }

    /// How a run that is to make so many events is closed where it has come to, if it is.
    pub fn closed(&self, steps: u64) -> Option<Picked>
        ensures { ClosesSo self.now.endpoints self.now.capacity steps self.now.state (length self.now.history) result }
    {
        if self.finished() {
            return Some(Picked::Ended);
        }
        if self.events() == steps {
            return Some(Picked::Limit);
        }
        match self.pick(0) {
            Some(_) => None,
            None => Some(self.stuck()),
        }
    }

    // Goes on as long as there are few processes. Tells how the run closed, if it did.
    fn run_among_few(&mut self, hosts: &HostTable, seed: u64, steps: u64) -> Option<Picked>
        requires hosts { AsksKnown (is_listed (names_of (functions_of hosts.now)) self.old.endpoints) self.old.endpoints }
        requires seed { seed < 2 ^ 33 }
        requires before { length self.old.history ≤ steps }
        requires fits { FitsMore self.old (steps - length self.old.history) }
        ensures { RunsOrGoesOn (hosts_in self.old.endpoints.names (functions_of hosts.now)) seed steps self.old result self.new }
    {
        let Ok(few) = Few::new(self.alloc, self) else {
            return Some(Picked::Memory);
        };
        let mut scheduler = Scheduler::new(self.take(), few);
        let picked = scheduler.run(hosts, seed, steps, FEW);
        *self = scheduler.into_network();
        picked
    }

    // Goes on, however many processes there are.
    fn run_among_many(&mut self, hosts: &HostTable, seed: u64, steps: u64) -> Picked
        requires hosts { AsksKnown (is_listed (names_of (functions_of hosts.now)) self.old.endpoints) self.old.endpoints }
        requires seed { seed < 2 ^ 33 }
        requires before { length self.old.history ≤ steps }
        requires fits { FitsMore self.old (steps - length self.old.history) }
        ensures { Runs (hosts_in self.old.endpoints.names (functions_of hosts.now)) seed steps self.old result self.new }
    {
        let Ok(candidates) = Candidates::new(self.alloc, self) else {
            return Picked::Memory;
        };
        let mut scheduler = Scheduler::new(self.take(), candidates);
        let picked = scheduler.run(hosts, seed, steps, u32::MAX);
        *self = scheduler.into_network();
        match picked {
            Some(picked) => picked,
            None => unreachable!(),
        }
    }

    /// Goes on by the pick rule until every process has ended, there are as many events as asked
    /// for, or no process can step. After `Memory` the events made so far stand. Where there are few
    /// processes, an event costs a look at each. Where there are more, it costs what its own
    /// processes do, and those that wait for what it changes; a start also looks for its partners,
    /// from the first process on.
    pub fn run_picked(&mut self, hosts: &HostTable, seed: u64, steps: u64) -> Picked
        requires hosts { AsksKnown (is_listed (names_of (functions_of hosts.now)) self.old.endpoints) self.old.endpoints }
        requires seed { seed < 2 ^ 33 }
        requires few { steps ≤ 1000000 }
        requires before { length self.old.history ≤ steps }
        requires fits { FitsMore self.old (steps - length self.old.history) }
        ensures { Runs (hosts_in self.old.endpoints.names (functions_of hosts.now)) seed steps self.old result self.new }
    {
        match self.run_among_few(hosts, seed, steps) {
            Some(picked) => picked,
            None => self.run_among_many(hosts, seed, steps),
        }
    }
}
