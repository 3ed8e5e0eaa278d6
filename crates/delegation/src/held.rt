//! Holders of roles.

ghost use Rattle.std.specs.Prelude.{◌≡◌};
ghost use Rattle.chor_tree.specs.Names.{is_among};
ghost use Rattle.delegation.specs.Checks.{all_differ};

use chor_base::NameId;

/// A role of a session, and the process that holds it.
#[derive(Clone, Copy, PartialEq, Eq)]
pub struct Held {
    pub session: NameId,
    pub role: NameId,
    pub process: NameId,
}

/// Whether no name stands twice in a list.
pub fn all_differ(names: &[NameId]) -> bool
    ensures { result ≡ all_differ names.now }
{
    match names {
        [] => true,
        [name, rest @ ..] => !is_among(rest, *name) && all_differ(rest),
    }
}

fn is_among(names: &[NameId], name: NameId) -> bool
    ensures { result ≡ is_among names.now name }
{
    names.iter().any(|other| *other == name)
}
