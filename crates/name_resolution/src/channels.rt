//! The names in channels.

ghost use Rattle.std.specs.Prelude.{◌≡◌, ◌++◌, ◌==◌, ◌&&◌, option_copied};
ghost use Rattle.std.specs.List.{flat_map, list_all, list_any, count_by};
ghost use Rattle.chor_tree.specs.Names.{names_in, is_among, has_each_once, wrong_roles, channel_faults};
ghost use Rattle.chor_base.specs.Faults.{first_of_all};

use crate::declared::Declared;
use crate::named::has_name;
use chor_base::{Fault, Rule, earlier, fault_if};
use chor_tree::{Named, Protocol, Service};

impl<'a> Declared<'a> {
    pub fn first_in_channels(&self) -> Option<Fault>
        ensures { let file = self.now.file.now in result ≡ first_of_all (flat_map (channel_faults file) file.services) }
    {
        let mut first = None;
        for service in self.file.services.as_slice() {
            first = earlier(first, self.first_in_channel(service));
        }
        first
    }

    #[tactic(auto, using(chor_base::proofs::Faults::first_append))]
    fn first_in_channel(&self, service: &Service) -> Option<Fault>
        ensures { result ≡ first_of_all (channel_faults self.now.file.now service.now) }
    {
        earlier(
            self.unknown_protocol(&service.protocol),
            wrong_roles(self.protocol(service.protocol.name), service),
        )
    }
}

// A channel whose roles aren't its protocol's, each once.
fn wrong_roles(protocol: Option<&Protocol>, service: &Service) -> Option<Fault>
    ensures { result ≡ first_of_all (wrong_roles (option_copied protocol.entry) service.now) }
{
    match protocol {
        Some(protocol) => fault_if(
            !has_each_once(
                protocol.roles.as_slice(),
                service.active.as_slice(),
                service.serve.as_slice(),
            ),
            Rule::N3,
            service.name.place,
        ),
        None => None,
    }
}

// Whether two lists together have each of these roles once, and no other.
fn has_each_once(roles: &[Named], active: &[Named], serve: &[Named]) -> bool
    ensures { result ≡ has_each_once (names_in roles.now) (names_in (active.now ++ serve.now)) }
{
    are_once(roles, active, serve) && are_among(active, roles) && are_among(serve, roles)
}

// Whether each of these roles stands once in two lists together.
fn are_once(roles: &[Named], active: &[Named], serve: &[Named]) -> bool
    ensures { result ≡ list_all (λ r. count_by (λ x. x.0 == r.0) (names_in (active.now ++ serve.now)) == 1) (names_in roles.now) }
{
    for role in roles {
        if !is_once(active, serve, role) {
            return false;
        }
    }
    true
}

// Whether each of these roles is known.
fn are_among(roles: &[Named], known: &[Named]) -> bool
    ensures { result ≡ list_all (is_among (names_in known.now)) (names_in roles.now) }
{
    for role in roles {
        if !has_name(known, role.name) {
            return false;
        }
    }
    true
}

// Whether a role stands once in two lists together.
fn is_once(active: &[Named], serve: &[Named], role: &Named) -> bool
    ensures { result ≡ (count_by (λ x. x.0 == role.now.name.0) (names_in (active.now ++ serve.now)) == 1) }
{
    active
        .iter()
        .chain(serve.iter())
        .filter(|other| other.name == role.name)
        .count()
        == 1
}
