//! What the text of a message before its load hangs on.

use chor_base::NameId;

/// What a message is called: of a value, of a label, of an endpoint, at its sender's and at its
/// receiver's.
#[derive(Clone, Copy, PartialEq, Eq)]
pub enum Verb {
    Send,
    Pick,
    Give,
    Recv,
    Branch,
    Gain,
}

/// What the text of a message before its load hangs on: who does what, in which session, from
/// which role to which.
#[derive(Clone, Copy, PartialEq, Eq)]
pub struct Phrase {
    pub verb: Verb,
    pub pid: u32,
    pub sid: u32,
    pub from: NameId,
    pub to: NameId,
}
