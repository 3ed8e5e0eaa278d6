//! The refusal of a file whose branches or starts clash.

ghost use Rattle.std.specs.Prelude.{◌≡◌, All};
ghost use Rattle.chor_base.specs.Writing.{name_in};
ghost use Rattle.projection.specs.MergeFaults.{sites_of, services_of, HasClash, IsFirstMergeFault, IsMergeDenial};
ghost use Rattle.block_codes.specs.Walks.{StopsAt};
ghost use Rattle.service_codes.specs.Services.{StopsAt as StopsAtRole};

use block_codes::Stop;
use chor_base::{Denied, List, NameId, Names, Place, Refusal, Rule};
use chor_tree::File;
use service_codes::ServiceFault;
use std::alloc::Global;

/// The refusal for branches that clash, which names the process.
pub fn branches_denied(alloc: Global, file: &File, stop: Stop) -> Denied
    requires { StopsAt file.now (sites_of file.now) stop }
    ensures { IsMergeDenial file.now result }
{
    match stop {
        Stop::Clash(place, process) => {
            let fault = Clash {
                rule: Rule::M1,
                place,
                who: process,
            };
            refused(alloc, file, fault)
        }
        Stop::Memory => Denied::Memory,
    }
}

/// The refusal for starts that clash, which names the role.
pub fn starts_denied(alloc: Global, file: &File, fault: ServiceFault) -> Denied
    requires clean { All (λ s. HasClash file.now s → ⊥) (sites_of file.now) }
    requires stopped { StopsAtRole file.now (services_of file.now) fault }
    ensures { IsMergeDenial file.now result }
{
    match fault {
        ServiceFault::Clash(place, role) => {
            let fault = Clash {
                rule: Rule::M2,
                place,
                who: role,
            };
            refused(alloc, file, fault)
        }
        ServiceFault::Memory => Denied::Memory,
    }
}

// A rule, where it is violated, and whose codes clash there.
#[derive(Clone, Copy)]
struct Clash {
    rule: Rule,
    place: Place,
    who: NameId,
}

// The refusal, with the written name.
fn refused(alloc: Global, file: &File, clash: Clash) -> Denied
    requires { IsFirstMergeFault file.now clash.rule clash.place clash.who }
    ensures { IsMergeDenial file.now result }
{
    match List::from_slice(alloc, word_of(&file.names, clash.who)) {
        Err(_) => Denied::Memory,
        Ok(word) => Denied::Refused(Refusal {
            rule: clash.rule,
            place: clash.place,
            who: Some(word),
        }),
    }
}

// The bytes of a name: none where it isn't in the table.
fn word_of(names: &Names, name: NameId) -> &[u8]
    ensures { result.now ≡ name_in names.now name }
{
    if (name.0 as usize) < names.len() {
        names.at(name)
    } else {
        b"".as_slice()
    }
}
