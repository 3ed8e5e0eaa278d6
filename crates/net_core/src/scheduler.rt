//! Scheduled runs over what is kept of the processes from event to event.

ghost use Rattle.std.specs.Prelude.{◌≡◌, ◌≢◌, ◌<◌, ◌≤◌, ◌-◌, ◌^◌, length, Option, ℕ, None};
ghost use Rattle.chor_host.specs.Functions.{hosts_in, names_of};
ghost use Rattle.chor_host.specs.Tables.{functions_of};
ghost use Rattle.endpoint_code.specs.declared.endpoints.Endpoints.{Endpoints as AnyEndpoints};
ghost use Rattle.endpoint_code.specs.Faults.{AsksKnown, is_listed};
ghost use Rattle.endpoint_code.specs.Network.{NetworkState};
ghost use Rattle.net_core.specs.Picks.{RunsOrGoesOn, Turns};
ghost use Rattle.net_core.specs.Steps.{FitsMore};

use crate::answer::Picked;
use crate::network::Network;
use chor_host::HostTable;
use std::marker::Model;

/// What is kept of the processes of a network from event to event.
pub trait Kept {
    ghost is_true: { AnyEndpoints → Option ℕ → NetworkState → Self → Type 0 };

    /// Makes one event of a scheduled run, unless it is closed.
    fn turn(
        &mut self,
        network: &mut Network<'_>,
        hosts: &HostTable,
        seed: u64,
        steps: u64,
    ) -> Option<Picked>
        requires hosts { AsksKnown (is_listed (names_of (functions_of hosts.now)) network.old.endpoints) network.old.endpoints }
        requires seed { seed < 2 ^ 33 }
        requires fits { length network.old.history ≢ steps → FitsMore network.old 1 }
        requires kept { is_true network.old.endpoints network.old.capacity network.old.state self.old }
        ensures turns { Turns (hosts_in network.old.endpoints.names (functions_of hosts.now)) seed steps network.old result network.new }
        ensures kept { result ≡ None → is_true network.new.endpoints network.new.capacity network.new.state self.new };
}

/// A network, and what is kept of its processes, which is true of them.
#[derive(Drop)]
pub struct Scheduler<'a, K: Kept> {
    network: Network<'a>,
    // Nothing once the run is closed.
    kept: Option<K>,
}

impl<'a, K: Kept> Model for Scheduler<'a, K> {
    ghost use Rattle.std.specs.Prelude.{IfSome};
    ghost use Rattle.net_core.specs.Views.{NetworkView};

    ghost Value = { NetworkView };

    ghost use Rattle.std.specs.Coded.{codes};
    ghost use Rattle.std.specs.FinMap as fin;
    ghost use Rattle.endpoint_code.specs.contracts.endpoints.Endpoints as whole;

    ghost coded = { Prim.hlevel (codes, whole.the_row.coded, fin.code) };

    ghost view = { λ a. a.network };

    ghost invariant = { λ a. IfSome a.kept (K.is_true a.network.endpoints a.network.capacity a.network.state) };
}

impl<'a, K: Kept + Drop> Scheduler<'a, K> {
    /// A network, with what is true of its processes.
    pub fn new(network: Network<'a>, kept: K) -> Self
        requires { K.is_true network.endpoints network.capacity network.state kept }
        ensures { result ≡ network.entry }
    {
        Scheduler {
            network,
            kept: Some(kept),
        }
    }

    /// The network, of which nothing is kept any more.
    pub fn into_network(self) -> Network<'a>
        ensures { result ≡ self.entry }
    {
        self.network
    }

    fn count(&self) -> u32
        ensures { result ≡ length self.now.state.machines }
    {
        self.network.count()
    }

    // One event of a scheduled run, unless it is closed.
    fn turn(&mut self, hosts: &HostTable, seed: u64, steps: u64) -> Option<Picked>
        requires hosts { AsksKnown (is_listed (names_of (functions_of hosts.now)) self.old.endpoints) self.old.endpoints }
        requires seed { seed < 2 ^ 33 }
        requires fits { length self.old.history ≢ steps → FitsMore self.old 1 }
        ensures { Turns (hosts_in self.old.endpoints.names (functions_of hosts.now)) seed steps self.old result self.new }
    {
        let Some(kept) = &mut self.kept else {
            return Some(Picked::Memory);
        };
        let picked = kept.turn(&mut self.network, hosts, seed, steps);
        if picked.is_some() {
            self.kept = None;
        }
        picked
    }

    /// Goes on by the pick rule as long as there are at most so many processes. Tells how the run
    /// closed; none where there are more.
    pub fn run(&mut self, hosts: &HostTable, seed: u64, steps: u64, most: u32) -> Option<Picked>
        requires hosts { AsksKnown (is_listed (names_of (functions_of hosts.now)) self.old.endpoints) self.old.endpoints }
        requires seed { seed < 2 ^ 33 }
        requires before { length self.old.history ≤ steps }
        requires fits { FitsMore self.old (steps - length self.old.history) }
        ensures runs { RunsOrGoesOn (hosts_in self.old.endpoints.names (functions_of hosts.now)) seed steps self.old result self.new }
        ensures more { result ≡ None → most < length self.new.state.machines }
    {
        while self.count() <= most {
            if let Some(picked) = self.turn(hosts, seed, steps) {
                return Some(picked);
            }
        }
        None
    }
}
