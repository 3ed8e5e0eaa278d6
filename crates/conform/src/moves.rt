//! Where a role's type goes on.

ghost use Rattle.std.specs.Prelude.{◌≡◌, ◌↔◌, IsTrue, Some, None, if◌then◌else◌};
ghost use Rattle.conform.specs.Moves.{act, IsNext, HasLabel};

use crate::deed::{Carried, Deed};
use chor_base::NameId;
use local_types::LocalState;

// The number of the state to which a deed leads from a state, if it may be done there.
pub fn next_of(state: &LocalState, deed: Deed) -> Option<u32>
    ensures { IsNext state.now (act deed) result }
{
    match *state {
        LocalState::End => None,
        LocalState::Send(to, payload, next) => {
            next_if(is_deed(deed, Deed::Puts(to, Carried::of(payload))), next)
        }
        LocalState::Recv(from, payload, next) => {
            next_if(is_deed(deed, Deed::Gets(from, Carried::of(payload))), next)
        }
        LocalState::Pick(to, ref labels) => chosen(labels.as_slice(), deed.label_to(to)?),
        LocalState::Branch(from, ref labels) => chosen(labels.as_slice(), deed.label_from(from)?),
    }
}

fn is_deed(deed: Deed, other: Deed) -> bool
    ensures { IsTrue result ↔ (deed ≡ other) }
{
    deed == other
}

fn next_if(holds: bool, next: u32) -> Option<u32>
    ensures { result ≡ (if holds then Some next else None) }
{
    if holds {
        return Some(next);
    }
    None
}

// The number of the state after a label.
fn chosen(labels: &[(NameId, u32)], label: NameId) -> Option<u32>
    ensures { HasLabel labels.now label result }
{
    for (other, next) in labels {
        if *other == label {
            return Some(*next);
        }
    }
    None
}
