//! What is declared in a file, found by name.

ghost use Rattle.std.specs.Prelude.{◌≡◌};
ghost use Rattle.std.specs.Option.{option_copied};
ghost use Rattle.chor_tree.specs.Names.{first_named};
ghost use Rattle.conform.specs.Progress.{role_among, protocol_among};

use chor_base::{List, NameId};
use chor_tree::{Named, Protocol, Service};

// The place of the first role of a name.
#[tactic(auto, using(chor_base::proofs::FirstPlaces::later_one, chor_base::proofs::FirstPlaces::later_none))]
pub fn role_among(roles: &[Named], name: NameId) -> Option<usize>
    ensures { result ≡ role_among roles.now name }
{
    for place in 0..roles.len() {
        if roles[place].name == name {
            return Some(place);
        }
    }
    None
}

// The place of the first protocol of a name.
#[tactic(auto, using(chor_base::proofs::FirstPlaces::later_one, chor_base::proofs::FirstPlaces::later_none))]
pub fn protocol_among(protocols: &List<Protocol>, name: NameId) -> Option<u32>
    ensures { result ≡ protocol_among protocols.now name }
{
    let items = protocols.as_slice();
    for place in 0..protocols.count() {
        let protocol = &items[place as usize];
        if protocol.name.name == name {
            return Some(place);
        }
    }
    None
}

// The channel of a name.
pub fn channel_named(services: &[Service], name: NameId) -> Option<&Service>
    ensures { option_copied result ≡ first_named (λ s. s.name) services.now name }
{
    for service in services {
        if service.name.name == name {
            return Some(service);
        }
    }
    None
}
