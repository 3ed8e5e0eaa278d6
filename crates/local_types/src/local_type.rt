//! The types of roles.

use chor_base::{List, NameId};
use chor_tree::Payload;

/// What a role does, as a table of states. It begins in the first.
pub struct LocalType {
    pub states: List<LocalState>,
}

impl Drop for LocalType {
    fn drop(self) {
        let LocalType { states: _ } = self;
    }
}

/// What a role does next: with whom, what, and the number of the state after it.
#[derive(Drop)]
pub enum LocalState {
    /// Nothing more.
    End,
    /// It sends to another role.
    Send(NameId, Payload, u32),
    /// It receives from another role.
    Recv(NameId, Payload, u32),
    /// It selects one of these labels for another role.
    Pick(NameId, List<(NameId, u32)>),
    /// It offers these labels to the choice of another role.
    Branch(NameId, List<(NameId, u32)>),
}
