//! What the calls of a network answer.

use chor_base::Why;

/// What became of a step of a process.
#[derive(Clone, Copy, PartialEq, Eq)]
pub enum Step {
    /// It made one event, now the last of the history.
    Did,
    /// It can't step for this cause.
    Waits(Why),
    /// It has ended.
    Ended,
    /// It can step, and there was no memory for it.
    Memory,
}

/// What became of an event that the network was to follow.
#[derive(Clone, Copy)]
pub enum Followed {
    /// It was made, and is now the last of the history.
    Did,
    /// No process can make it here.
    Unmatched,
    /// It can be made here, and there was no memory for it.
    Memory,
}

/// How a scheduled run closed.
#[derive(Clone, Copy)]
pub enum Picked {
    /// Every process has ended.
    Ended,
    /// There are as many events as were asked for, and some process hasn't ended.
    Limit,
    /// No process can step: the first that hasn't ended, and why it waits.
    Stuck(u32, Why),
    /// There was no memory for the next event.
    Memory,
}
