//! What choreographies mean: their steps and their runs.
#![tactic(auto)]

mod block;
pub mod examples;

ghost use Rattle.std.specs.Prelude.{◌≡◌, List};
ghost use Rattle.chor_base.specs.declared.event.Event.{Event};
ghost use Rattle.chor_base.specs.Meaning.{Hosts};
ghost use Rattle.chor_semantics.specs.Sources.{Procedure, Configuration};
ghost use Rattle.chor_semantics.specs.Steps.{Steps};

pub use block::blocks_are_choreographies;

/// A configuration and an event have one next configuration at most.
pub fn one_next()
    ensures { (procs : List Procedure) (hosts : Hosts) (old new other : Configuration) (e : Event) → Steps procs hosts old e new → Steps procs hosts old e other → new ≡ other }
{}
