//! What is posted of processes, and what the calls of an office answer.

use chor_base::{Load, NameId, Why};

/// What a process is doing.
#[derive(Clone, Copy)]
pub enum Post {
    /// Nothing is known of it.
    Busy,
    /// It joins a channel in a role.
    Joining(NameId, NameId),
    /// It waits at a queue, for this cause.
    Waiting(Why),
    /// It has ended.
    Ended,
}

/// What became of a send.
#[derive(Clone, Copy)]
pub enum Sent {
    /// The message is the last of its queue.
    Sent,
    /// The queue has reached the declared capacity.
    Full,
}

/// What became of a receipt.
#[derive(Clone, Copy)]
pub enum Received {
    /// This was the first message of the queue.
    Got(Load),
    /// The queue is empty.
    Empty,
}

/// What became of a start.
#[derive(Clone, Copy)]
pub enum Started {
    /// The session of this number has started.
    Started(u32),
    /// The first other active role in which no process is posted as joining.
    Absent(NameId),
    /// There was no memory for it.
    Memory,
}

/// How the run of a network stands, by what is posted of its processes.
#[derive(Clone, Copy)]
pub enum Standing {
    /// Some process may go on.
    Going,
    /// Every process has ended.
    Ended,
    /// None can step. The first process that hasn't ended, and why it can't.
    Stuck(u32, Why),
}
