//! What the processes of a network wait for, and whom an event leaves as it was.
#![tactic(auto)]

ghost use Rattle.waiting_processes.specs.Untouched.{OthersStay, OthersStayListed};

mod lists;
mod waits;

pub use lists::WaitingLists;
pub use waits::{Awaited, awaited_by, touched_by};

/// A process that neither makes an event nor waits for what it changes is where it was after it,
/// and the queues on which the event does nothing are as they were.
pub fn others_stay()
    ensures { OthersStay }
{}

/// Such a process may be taken by the pick rule where it could be, unless another has come to the
/// channel that it joins.
pub fn others_stay_listed()
    ensures { OthersStayListed }
{}
