//! Endpoint programs, and what a network of them does.
#![tactic(auto)]

ghost use Rattle.std.specs.Prelude.{◌≡◌, ℕ, List, Option};
ghost use Rattle.chor_base.specs.declared.event.Event.{Event};
ghost use Rattle.chor_base.specs.Meaning.{Hosts};
ghost use Rattle.chor_base.specs.Events.{IsFifo};
ghost use Rattle.endpoint_code.specs.declared.endpoints.Endpoints.{Endpoints as AnyEndpoints};
ghost use Rattle.endpoint_code.specs.Network.{NetworkState, NetworkSteps};
ghost use Rattle.endpoint_code.specs.NetworkRuns.{IsNetworkRun};
ghost use Rattle.endpoint_code.specs.SameState.{IsSameState};

pub mod above;
mod code;
mod endpoints;

pub use code::{Code, CodeId, CodeNode};
pub use endpoints::{Channel, Endpoints, Procedure, Process, ServiceCode};

/// In each run of a network, whatever its endpoints, messages are received first in, first out.
pub fn first_in_first_out()
    ensures { (e : AnyEndpoints) (hosts : Hosts) (capacity : Option ℕ) (h : List Event) (last : NetworkState) → IsNetworkRun e hosts capacity h last → IsFifo h }
{}

/// Being the same state of a network is an equivalence.
pub fn same_state_is_an_equivalence()
    ensures reflexive { (n : NetworkState) → IsSameState n n }
    ensures symmetric { (n m : NetworkState) → IsSameState n m → IsSameState m n }
    ensures transitive { (n m k : NetworkState) → IsSameState n m → IsSameState m k → IsSameState n k }
{}

/// A state of a network and an event have one next state at most.
pub fn one_next()
    ensures { (e : AnyEndpoints) (hosts : Hosts) (capacity : Option ℕ) (n m k : NetworkState) (x : Event) → NetworkSteps e hosts capacity n x m → NetworkSteps e hosts capacity n x k → m ≡ k }
{}
