//! What a role does in one event.

ghost use Rattle.std.specs.Prelude.{◌≡◌, ◌≢◌, MatchOption};
ghost use Rattle.chor_base.specs.declared.names.NameId.{NameId as Name};
ghost use Rattle.global_types.specs.Moves.{content_of};
ghost use Rattle.typed_sources.specs.Told.{told_of, of_label, puts, gets};
ghost use Rattle.conform.specs.Moves.{told, act};

use chor_base::{NameId, Sort};
use chor_tree::Payload;

// What a message carries, as far as its event tells: of an endpoint, its protocol and its role.
#[derive(Clone, Copy, PartialEq, Eq)]
pub enum Carried {
    Sort(Sort),
    Endpoint(NameId, NameId),
    Label(NameId),
}

// What a role does: it puts something to another role, or gets it from one.
#[derive(Clone, Copy, PartialEq, Eq)]
pub enum Deed {
    Puts(NameId, Carried),
    Gets(NameId, Carried),
}

impl Carried {
    // What a message carries in which a protocol has this payload.
    pub fn of(payload: Payload) -> Carried
        ensures { told result ≡ told_of (content_of payload) }
    {
        match payload {
            Payload::Plain(sort) => Carried::Sort(sort),
            Payload::Endpoint { protocol, role, .. } => Carried::Endpoint(protocol.name, role.name),
        }
    }

    // The label that it is.
    pub fn label(self) -> Option<NameId>
        ensures { MatchOption result ((l : Name) → told self ≢ of_label l) (λ l. told self ≡ of_label l) }
    {
        match self {
            Carried::Label(label) => Some(label),
            _ => None,
        }
    }
}

impl Deed {
    // The label that it puts to this role.
    pub fn label_to(self, to: NameId) -> Option<NameId>
        ensures { MatchOption result ((l : Name) → act self ≢ puts to (of_label l)) (λ l. act self ≡ puts to (of_label l)) }
    {
        match self {
            Deed::Puts(other, carried) if other == to => carried.label(),
            _ => None,
        }
    }

    // The label that it gets from this role.
    pub fn label_from(self, from: NameId) -> Option<NameId>
        ensures { MatchOption result ((l : Name) → act self ≢ gets from (of_label l)) (λ l. act self ≡ gets from (of_label l)) }
    {
        match self {
            Deed::Gets(other, carried) if other == from => carried.label(),
            _ => None,
        }
    }
}
