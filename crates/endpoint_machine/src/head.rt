//! What a process does next.

use chor_base::NameId;

/// The next action of a process.
#[derive(Clone, Copy, PartialEq, Eq)]
pub enum Head {
    /// It joins a channel in a role.
    Join(NameId, NameId),
    /// It sends on a session from its role to another.
    Out(u32, NameId, NameId),
    /// It takes on a session what was sent from a role to its own.
    Take(u32, NameId, NameId),
    /// It acts by itself: it sets a variable, shows a value, decides or asks a host function.
    Local,
    /// It has ended.
    Ended,
}
