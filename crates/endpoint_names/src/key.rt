//! What tells a unit from others of its kind.

ghost use Rattle.std.specs.Prelude.{◌≡◌};
ghost use Rattle.endpoint_names.specs.declared.key.Sign.{Sign as AnySign};
ghost use Rattle.endpoint_names.specs.Keys.{alone, both};
ghost use Rattle.endpoint_names.specs.Keys.{sign_of_name, sign_of_two, sign_of_channel, sign_of_procedure, sign_of_service, sign_of_process, sign_of_arm};

use chor_base::{NameId, Place};
use endpoint_reader::{Arm, Channel, Named, Procedure, Process, Service};

/// A name, and a second one where there is one.
#[derive(Clone, Copy, PartialEq, Eq, Hash)]
pub struct Key {
    pub name: NameId,
    pub second: Option<NameId>,
}

impl Key {
    // A name alone.
    pub fn alone(name: NameId) -> Self
        ensures { result ≡ alone name }
    {
        Key { name, second: None }
    }

    // Two names.
    pub fn both(name: NameId, second: NameId) -> Self
        ensures { result ≡ both name second }
    {
        Key {
            name,
            second: Some(second),
        }
    }
}

/// A key, and where its first name stands.
#[derive(Clone, Copy, PartialEq, Eq)]
pub struct Sign {
    pub key: Key,
    pub place: Place,
}

// A name alone, and where it stands.
fn sign_of_name(name: &Named) -> Sign
    ensures { result ≡ sign_of_name name.now }
{
    Sign {
        key: Key::alone(name.name),
        place: name.place,
    }
}

// Two names, and where the first one stands.
fn sign_of_two(name: &Named, second: &Named) -> Sign
    ensures { result ≡ sign_of_two name.now second.now }
{
    Sign {
        key: Key::both(name.name, second.name),
        place: name.place,
    }
}

// An item that is told by a key.
pub trait HasSign {
    ghost sign_of: { Self → AnySign };

    // Its key, and where that stands.
    fn sign(&self) -> Sign
        ensures { result ≡ sign_of self.now };
}

impl HasSign for Named {
    ghost sign_of = { sign_of_name };

    fn sign(&self) -> Sign {
        sign_of_name(self)
    }
}

impl HasSign for Channel {
    ghost sign_of = { sign_of_channel };

    fn sign(&self) -> Sign {
        sign_of_name(&self.name)
    }
}

impl HasSign for Procedure {
    ghost sign_of = { sign_of_procedure };

    fn sign(&self) -> Sign {
        sign_of_two(&self.signature.name, &self.signature.param)
    }
}

impl HasSign for Service {
    ghost sign_of = { sign_of_service };

    fn sign(&self) -> Sign {
        sign_of_two(&self.channel, &self.role)
    }
}

impl HasSign for Process {
    ghost sign_of = { sign_of_process };

    fn sign(&self) -> Sign {
        sign_of_name(&self.name)
    }
}

// An arm of a branch by its label.
impl HasSign for Arm {
    ghost sign_of = { sign_of_arm };

    fn sign(&self) -> Sign {
        sign_of_name(&self.label)
    }
}
