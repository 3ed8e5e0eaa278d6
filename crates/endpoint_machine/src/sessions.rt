//! What the session names of a process stand for.

ghost use Rattle.std.specs.Prelude.{◌≡◌, ◌≤◌, ◌<◌, ◌+◌, length, OnOk, IsOk, filter, not, ◌==◌, true, vec_len, vec_capacity};
ghost use Rattle.std.specs.FinMap as fin;
ghost use Rattle.endpoint_code.specs.Network.{passed};

use chor_base::{Memory, NameId};
use std::alloc::Global;
use std::marker::Model;

/// What a session name stands for: a session, and the role that the process holds in it.
#[derive(Clone, Copy)]
pub struct Binding {
    pub session: NameId,
    pub sid: u32,
    pub role: NameId,
}

/// The sessions of a process by their names. Contracts see the finite map from the names' numbers,
/// and how many names more fit without taking memory.
pub struct Bindings {
    items: Vec<Binding>,
    // The first of them once more, so that a look at it needs no memory of the list.
    first: Option<Binding>,
}

impl Drop for Bindings {
    fn drop(self) {
        let Bindings { items: _, first: _ } = self;
    }
}

impl Model for Bindings {
    ghost use Rattle.std.specs.Prelude.{ℕ, refl, ◌-◌, vec_capacity, vec_len};
    ghost use Rattle.std.specs.Coded.{codes};
    ghost use Rattle.std.specs.FinMap as fin;
    ghost use Rattle.chor_base.specs.declared.names.NameId.{NameId};
    ghost use Rattle.chor_base.specs.NameMap.{NameMapView};
    ghost use Rattle.endpoint_machine.specs.Sessions.{sessions_of};

    ghost Value = { NameMapView (ℕ × NameId) };

    ghost coded = { Prim.hlevel (codes, fin.code) };

    ghost view = { λ a. record { map = sessions_of a.items.items; spare = vec_capacity a.items - vec_len a.items } };

    ghost use Rattle.std.specs.Prelude.{◌≡◌, slice_get};

    ghost invariant = { λ a. a.first ≡ slice_get a.items.items 0 };
}

// Drops the bindings of a name.
fn forget(items: &mut Vec<Binding>, name: NameId)
    ensures items { items.new.items ≡ filter (λ b. not (b.session.0 == name.0)) items.old.items }
    ensures len { vec_len items.new ≤ vec_len items.old }
    ensures capacity { vec_capacity items.new ≡ vec_capacity items.old }
{
    items.retain(|binding| binding.session != name);
}

impl Bindings {
    /// No names. It takes no memory.
    pub fn new(alloc: Global) -> Bindings
        ensures { result.map ≡ fin.empty }
    {
        Bindings {
            items: Vec::new(alloc),
            first: None,
        }
    }

    /// What a name stands for, if anything.
    pub fn get(&self, name: NameId) -> Option<(u32, NameId)>
        ensures { result ≡ fin.get self.now.map name.0 }
    {
        if let Some(first) = self.first {
            if first.session == name {
                return Some((first.sid, first.role));
            }
        }
        for binding in &self.items {
            if binding.session == name {
                return Some((binding.sid, binding.role));
            }
        }
        None
    }

    /// Takes memory for so many names more.
    pub fn reserve(&mut self, count: usize) -> Result<(), Memory>
        ensures map { self.new.map ≡ self.old.map }
        ensures ok { OnOk result (count ≤ self.new.spare) }
        ensures kept { self.old.spare ≤ self.new.spare }
        ensures succeeds { count ≤ self.old.spare → IsOk result }
    {
        self.items.reserve(count)?;
        Ok(())
    }

    /// Lets a name stand for nothing.
    pub fn remove(&mut self, name: NameId)
        ensures map { self.new.map ≡ fin.remove self.old.map name.0 }
        ensures kept { self.old.spare ≤ self.new.spare }
    {
        forget(&mut self.items, name);
        self.first = self.items.first().copied();
    }

    /// Lets a name stand for a role of a session.
    pub fn set(&mut self, name: NameId, sid: u32, role: NameId)
        requires { 1 ≤ self.old.spare }
        ensures map { self.new.map ≡ fin.insert self.old.map name.0 (sid, role) }
        ensures spare { self.old.spare ≤ self.new.spare + 1 }
    {
        forget(&mut self.items, name);
        let binding = Binding {
            session: name,
            sid,
            role,
        };
        match self.items.push(binding) {
            Ok(()) => {}
            Err(_) => unreachable!(),
        }
        self.first = self.items.first().copied();
    }

    // Lets no name stand for anything.
    fn clear(&mut self)
        ensures map { self.new.map ≡ fin.empty }
        ensures kept { self.old.spare ≤ self.new.spare }
    {
        self.items.clear();
        self.first = None;
    }

    /// Whether the one name here is the one that a call passes, and its procedure's name too. Then the
    /// call changes nothing.
    pub fn is_kept(&self, params: &[NameId], names: &[NameId]) -> bool
        ensures { result ≡ true → passed params.now names.now self.now.map ≡ self.now.map }
    {
        let Some(first) = self.first else {
            return false;
        };
        if params.len() != 1 || names.len() != 1 || self.items.len() != 1 {
            return false;
        }
        params[0] == first.session && names[0] == first.session
    }

    /// The sessions that a call passes under its procedure's names, and no others.
    pub fn pass(&mut self, params: &[NameId], names: &[NameId], from: &Bindings)
        requires same { length params.now ≡ length names.now }
        requires room { length names.now ≤ self.old.spare }
        ensures map { self.new.map ≡ passed params.now names.now from.now.map }
        ensures spare { self.old.spare ≤ self.new.spare + length names.now }
    {
        self.clear();
        let mut left = names.len();
        while left > 0 {
            left -= 1;
            if let Some((sid, role)) = from.get(names[left]) {
                self.set(params[left], sid, role);
            }
        }
    }

    /// What a procedure's name stands for where a call passes these sessions.
    pub fn get_passed(
        &self,
        params: &[NameId],
        names: &[NameId],
        name: NameId,
    ) -> Option<(u32, NameId)>
        requires { length params.now ≡ length names.now }
        ensures { result ≡ fin.get (passed params.now names.now self.now.map) name.0 }
    {
        for i in 0..params.len() {
            if params[i] == name {
                if let Some(found) = self.get(names[i]) {
                    return Some(found);
                }
            }
        }
        None
    }
}
