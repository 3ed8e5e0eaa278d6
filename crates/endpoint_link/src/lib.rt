//! Endpoint programs that were written by hand, put in place of compiled ones.
#![tactic(auto)]

mod checking;
mod comparing;
mod fault;
mod index;
mod joined;
mod judging;
mod linking;
mod making;
mod node;
mod renumbering;
mod table;
mod unit_name;
mod verdict;
mod words;

ghost use Rattle.endpoint_link.specs.Laws.{LinkedIsAbove, LinkedIsFaultless};

pub use fault::{LinkFault, LinkRule, Unit};
pub use joined::Joined;
pub use linking::link;

/// Linked programs are, unit by unit, above the base.
pub fn linked_is_above()
    ensures { LinkedIsAbove }
{}

/// Linked programs have no fault of names or calls where neither the base nor the given ones have.
pub fn linked_is_faultless()
    ensures { LinkedIsFaultless }
{}
