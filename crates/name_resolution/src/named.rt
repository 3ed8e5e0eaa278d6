//! Items that bear a name, and lists of them in which no name stands twice.

ghost use Rattle.std.specs.Prelude.{◌≡◌, ◌++◌, [], map, IfOk, OnOk};
ghost use Rattle.chor_tree.specs.declared.file.Named.{Named};
ghost use Rattle.chor_tree.specs.Names.{repeated, is_among, unknown};
ghost use Rattle.chor_base.specs.Faults.{first_of_all};
ghost use Rattle.name_resolution.specs.Places.{names_of};
ghost use Rattle.name_resolution.specs.Sets.{AreAlike};

use crate::set::NameSet;
use chor_base::{Fault, List, Memory, NameId, Rule, Sort, earlier, fault_if};
use chor_tree::{Named, Part, Proc, ProcParam, ProtoArm, Protocol, Service, SessionParam, State};
use std::alloc::Global;

/// An item that bears a name.
pub trait HasName {
    ghost name_of: { Self → Named };

    /// Its name, and where that stands.
    fn named(&self) -> Named
        ensures { result ≡ name_of self.now };
}

impl HasName for Named {
    ghost name_of = { λ x. x };

    fn named(&self) -> Named {
        *self
    }
}

impl HasName for Protocol {
    ghost name_of = { λ p. p.name };

    fn named(&self) -> Named {
        self.name
    }
}

impl HasName for State {
    ghost name_of = { λ s. s.name };

    fn named(&self) -> Named {
        self.name
    }
}

// An arm of a choice by its label.
impl HasName for ProtoArm {
    ghost name_of = { λ a. a.label };

    fn named(&self) -> Named {
        self.label
    }
}

impl HasName for Service {
    ghost name_of = { λ s. s.name };

    fn named(&self) -> Named {
        self.name
    }
}

impl HasName for Proc {
    ghost name_of = { λ p. p.name };

    fn named(&self) -> Named {
        self.name
    }
}

impl HasName for ProcParam {
    ghost name_of = { λ q. q.name };

    fn named(&self) -> Named {
        self.name
    }
}

impl HasName for SessionParam {
    ghost name_of = { λ k. k.name };

    fn named(&self) -> Named {
        self.name
    }
}

// A variable of a process parameter.
impl HasName for (Named, Sort) {
    ghost name_of = { λ v. v.0 };

    fn named(&self) -> Named {
        self.0
    }
}

// A holder in a session parameter by its role.
impl HasName for (Named, Named) {
    ghost name_of = { λ h. h.0 };

    fn named(&self) -> Named {
        self.0
    }
}

// A new process of a start.
impl HasName for Part {
    ghost name_of = { λ q. q.process };

    fn named(&self) -> Named {
        self.process
    }
}

// The first name of a list that is known already or stands before in the list. All of them are
// known afterwards.
pub fn repeated<T: HasName>(known: &mut NameSet, items: &List<T>) -> Result<Option<Fault>, Memory>
    ensures fault { IfOk result (λ o. o ≡ first_of_all (repeated known.old (map T.name_of items.now))) }
    ensures known { OnOk result (AreAlike known.new (known.old ++ names_of T.name_of items.now)) }
{
    let mut first = None;
    for item in items.as_slice() {
        let found = known.add_once(&item.named())?;
        first = earlier(first, found);
    }
    Ok(first)
}

// The names of a list become known.
pub fn add_all<T: HasName>(known: &mut NameSet, items: &List<T>) -> Result<(), Memory>
    ensures { OnOk result (AreAlike known.new (known.old ++ names_of T.name_of items.now)) }
{
    for item in items.as_slice() {
        known.add(item.named().name)?;
    }
    Ok(())
}

// Whether an item of a list has a name.
pub fn has_name<T: HasName>(items: &[T], name: NameId) -> bool
    ensures { result ≡ is_among (names_of T.name_of items.now) name }
{
    for item in items {
        if item.named().name == name {
            return true;
        }
    }
    false
}

// A name that no item of a list has.
pub fn unknown_in<T: HasName>(items: &List<T>, name: &Named) -> Option<Fault>
    ensures { result ≡ first_of_all (unknown (names_of T.name_of items.now) name.now) }
{
    fault_if(!has_name(items.as_slice(), name.name), Rule::N1, name.place)
}

// The first name of a list that stands before in the list.
pub fn twice_in<T: HasName>(alloc: Global, items: &List<T>) -> Result<Option<Fault>, Memory>
    ensures { IfOk result (λ o. o ≡ first_of_all (repeated [] (map T.name_of items.now))) }
{
    let mut known = NameSet::new(alloc);
    repeated(&mut known, items)
}
