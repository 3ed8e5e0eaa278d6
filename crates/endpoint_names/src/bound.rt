//! The sessions that are bound.

ghost use Rattle.std.specs.Prelude.{◌≡◌, ◌∷◌, [], IfOk, OnOk};
ghost use Rattle.chor_base.specs.Faults.{first_of_all};
ghost use Rattle.endpoint_code.specs.Faults.{is_among, without};
ghost use Rattle.endpoint_names.specs.Faults.{names_in, unbound, bound_again, bound_after};

use chor_base::{Fault, Memory, NameId, Rule, fault_if};
use endpoint_reader::{Action, Named};
use std::alloc::Global;
use std::marker::Model;

// The sessions that are bound on a path, the last one first.
pub struct Bound {
    names: Vec<NameId>,
}

impl Drop for Bound {
    fn drop(self) {
        let Bound { names: _ } = self;
    }
}

impl Model for Bound {
    ghost use Rattle.std.specs.Prelude.{List};
    ghost use Rattle.chor_base.specs.declared.names.NameId.{NameId};

    ghost Value = { List NameId };

    ghost view = { λ a. a.names.items };
}

impl Bound {
    // No session.
    pub fn new(alloc: Global) -> Self
        ensures { result ≡ [] }
    {
        Bound {
            names: Vec::new(alloc),
        }
    }

    // These sessions.
    pub fn of_sessions(alloc: Global, sessions: &[Named]) -> Result<Self, Memory>
        ensures { IfOk result (λ bound. bound ≡ names_in sessions.now) }
    {
        let mut names = Vec::new(alloc);
        for session in sessions {
            names.push(session.name)?;
        }
        Ok(Bound { names })
    }

    // The same sessions once more.
    pub fn copy(&self, alloc: Global) -> Result<Self, Memory>
        ensures { IfOk result (λ bound. bound ≡ self.now) }
    {
        let mut names = Vec::new(alloc);
        names.extend_from_slice(self.names.as_slice())?;
        Ok(Bound { names })
    }

    // Whether a session is bound.
    fn has(&self, name: NameId) -> bool
        ensures { result ≡ is_among name self.now }
    {
        for bound in self.names.as_slice() {
            if *bound == name {
                return true;
            }
        }
        false
    }

    // A session is bound.
    pub fn bind(&mut self, name: NameId) -> Result<(), Memory>
        ensures { OnOk result (self.new ≡ name ∷ self.old) }
    {
        self.names.insert(0, name)?;
        Ok(())
    }

    // A session isn't bound any longer.
    fn unbind(&mut self, name: NameId)
        ensures { self.new ≡ without name self.old }
    {
        self.names.retain(|bound| *bound != name);
    }

    // A session that isn't bound.
    pub fn unbound(&self, session: &Named) -> Option<Fault>
        ensures { result ≡ first_of_all (unbound self.now session.now) }
    {
        fault_if(!self.has(session.name), Rule::E2, session.place)
    }

    // A session that is bound already.
    pub fn bound_again(&self, session: &Named) -> Option<Fault>
        ensures { result ≡ first_of_all (bound_again self.now session.now) }
    {
        fault_if(self.has(session.name), Rule::E2, session.place)
    }

    // An action binds its new session, or hands one over.
    pub fn pass(&mut self, action: &Action) -> Result<(), Memory>
        ensures { OnOk result (self.new ≡ bound_after self.old action.now) }
    {
        match action {
            Action::Join(_, _, session) => self.bind(session.name),
            Action::Give(_, _, given) => {
                self.unbind(given.name);
                Ok(())
            }
            Action::Gain(_, _, gained) => self.bind(gained.name),
            _ => Ok(()),
        }
    }
}
