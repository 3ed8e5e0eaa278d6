//! The processes and sessions that may be named.

ghost use Rattle.std.specs.Prelude.{◌≡◌, ◌++◌, ◌∷◌, [], map, length, take, IfOk, OnOk};
ghost use Rattle.chor_base.specs.declared.rule.Rule.TheVariants.{N2};
ghost use Rattle.chor_tree.specs.Names.{is_among, fault_at, names_in, repeated, unknown_process, unknown_session, scope_of_procedure, message_faults};
ghost use Rattle.chor_base.specs.Faults.{first_of_all};
ghost use Rattle.name_resolution.specs.Sets.{IsSameScope, BeginsWith, scope_of, bound_in};

use crate::named::{HasName, add_all};
use crate::set::NameSet;
use chor_base::{Fault, List, Memory, NameId, Rule, earlier, fault_if};
use chor_tree::{Named, Part, Proc};
use std::alloc::Global;
use std::marker::Model;

// The processes and the sessions that are bound on a path. They share one name space.
pub struct Bound {
    processes: NameSet,
    sessions: NameSet,
}

impl Drop for Bound {
    fn drop(self) {
        let Bound {
            processes: _,
            sessions: _,
        } = self;
    }
}

impl Model for Bound {
    ghost use Rattle.chor_tree.specs.Names.{Scope};

    ghost Value = { Scope };

    ghost view = { λ a. record { processes = a.processes; sessions = a.sessions } };
}

// How many names there are of each kind.
#[derive(Clone, Copy)]
pub struct Mark {
    processes: usize,
    sessions: usize,
}

impl Bound {
    // What is bound at the beginning of main.
    pub fn of_main(alloc: Global, processes: &List<Named>) -> Result<Self, Memory>
        ensures { IfOk result (λ bound. IsSameScope bound (scope_of (names_in processes.now) [])) }
    {
        let mut names = NameSet::new(alloc);
        add_all(&mut names, processes)?;
        Ok(Bound {
            processes: names,
            sessions: NameSet::new(alloc),
        })
    }

    // What is bound at the beginning of a procedure.
    pub fn of_procedure(alloc: Global, procedure: &Proc) -> Result<Self, Memory>
        ensures { IfOk result (λ bound. IsSameScope bound (scope_of_procedure procedure.now)) }
    {
        let mut processes = NameSet::new(alloc);
        add_all(&mut processes, &procedure.params)?;
        let mut sessions = NameSet::new(alloc);
        add_all(&mut sessions, &procedure.sessions)?;
        Ok(Bound {
            processes,
            sessions,
        })
    }

    pub fn unknown_process(&self, process: &Named) -> Option<Fault>
        ensures { result ≡ first_of_all (unknown_process self.now process.now) }
    {
        self.processes.unknown(process)
    }

    pub fn unknown_session(&self, session: &Named) -> Option<Fault>
        ensures { result ≡ first_of_all (unknown_session self.now session.now) }
    {
        self.sessions.unknown(session)
    }

    // The names of a message: its sender, its receiver and its session.
    #[tactic(auto, using(chor_base::proofs::Faults::first_append))]
    pub fn first_in_message(&self, from: &Part, to: &Part, session: &Named) -> Option<Fault>
        ensures { result ≡ first_of_all (message_faults self.now from.now to.now session.now) }
    {
        earlier(
            earlier(
                self.unknown_process(&from.process),
                self.unknown_process(&to.process),
            ),
            self.unknown_session(session),
        )
    }

    // A start binds its session and then its new processes.
    pub fn bind(&mut self, session: &Named, serve: &List<Part>) -> Result<Option<Fault>, Memory>
        ensures fault { IfOk result (λ o. o ≡ first_of_all (repeated (self.old.processes ++ self.old.sessions) (session.now ∷ map (λ q. q.process) serve.now))) }
        ensures bound { OnOk result (IsSameScope self.new (bound_in self.old session.now serve.now)) }
        ensures begins { OnOk result (BeginsWith self.old self.new) }
    {
        let first = self.twice(session);
        self.sessions.add(session.name)?;
        let rest = self.bind_processes(serve)?;
        Ok(earlier(first, rest))
    }

    fn bind_processes(&mut self, serve: &List<Part>) -> Result<Option<Fault>, Memory>
        ensures fault { IfOk result (λ o. o ≡ first_of_all (repeated (self.old.processes ++ self.old.sessions) (map (λ q. q.process) serve.now))) }
        ensures bound { OnOk result (IsSameScope self.new (scope_of (self.old.processes ++ map (λ q. q.process.name) serve.now) self.old.sessions)) }
        ensures begins { OnOk result (BeginsWith self.old self.new) }
    {
        let mut first = None;
        for part in serve.as_slice() {
            let process = part.named();
            first = earlier(first, self.twice(&process));
            self.processes.add(process.name)?;
        }
        Ok(first)
    }

    // A name that is bound already.
    fn twice(&self, name: &Named) -> Option<Fault>
        ensures { result ≡ first_of_all (fault_at (is_among (self.now.processes ++ self.now.sessions) name.now.name) N2 name.now) }
    {
        fault_if(self.has(name.name), Rule::N2, name.place)
    }

    #[tactic(auto, using(crate::proofs::Members::among_append))]
    fn has(&self, name: NameId) -> bool
        ensures { result ≡ is_among (self.now.processes ++ self.now.sessions) name }
    {
        self.processes.has(name) || self.sessions.has(name)
    }

    pub fn mark(&self) -> Mark
        ensures processes { result.processes ≡ length self.now.processes }
        ensures sessions { result.sessions ≡ length self.now.sessions }
    {
        Mark {
            processes: self.processes.len(),
            sessions: self.sessions.len(),
        }
    }

    // Nothing is bound but what was bound at a mark.
    pub fn back_to(&mut self, mark: &Mark)
        ensures { self.new ≡ scope_of (take mark.now.processes self.old.processes) (take mark.now.sessions self.old.sessions) }
    {
        self.processes.back_to(mark.processes);
        self.sessions.back_to(mark.sessions);
    }
}
