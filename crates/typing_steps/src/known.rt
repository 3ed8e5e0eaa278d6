//! What is known at a statement.

ghost use Rattle.std.specs.Prelude.{◌≡◌, true, map, IfOk, OnOk};
ghost use Rattle.std.specs.List.{flat_map};
ghost use Rattle.chor_tree.specs.Forms.{head_of};
ghost use Rattle.delegation.specs.Checks.{IsJudged, all_differ};
ghost use Rattle.delegation.specs.Owners.{listed};
ghost use Rattle.typing_rules.specs.After.{after};
ghost use Rattle.typing_rules.specs.Checks.{rule_at};
ghost use Rattle.typing_rules.specs.Environment.{at_main, at_procedure, stands};
ghost use Rattle.typing_steps.specs.Known.{environment_of, IsFresh};

use crate::judging::judged;
use crate::messages::Message;
use crate::sorts::SortMap;
use crate::standings::Standing;
use crate::starts::Start;
use chor_base::Memory;
use chor_tree::{File, Form, Proc, SessionParam};
use delegation::{OwnFault, Owners};
use std::alloc::Global;

/// What is known at a statement: where each session in scope stands, who holds its roles, and the
/// sorts of the variables that are set.
pub struct Known {
    pub(crate) standings: Vec<Standing>,
    pub(crate) owners: Owners,
    pub(crate) sorts: SortMap,
}

impl Drop for Known {
    fn drop(self) {
        let Known {
            standings: _,
            owners: _,
            sorts: _,
        } = self;
    }
}

impl Known {
    /// Where the body of `main` begins. It takes no memory.
    pub fn at_main(alloc: Global) -> Known
        ensures { environment_of result ≡ at_main }
    {
        Known {
            standings: Vec::new(alloc),
            owners: Owners::new(alloc),
            sorts: SortMap::new(alloc),
        }
    }

    /// Where the body of a procedure begins, in which no two sessions have one name.
    pub fn at_procedure(alloc: Global, procedure: &Proc) -> Result<Known, Memory>
        requires { all_differ (map (λ k. k.name.name) procedure.now.sessions) ≡ true }
        ensures { IfOk result (λ known. environment_of known ≡ at_procedure procedure.now) }
    {
        let sessions = procedure.sessions.as_slice();
        let standings = declared_standings(alloc, sessions)?;
        let owners = declared_owners(alloc, sessions)?;
        let sorts = SortMap::declared(alloc, procedure.params.as_slice())?;
        Ok(Known {
            standings,
            owners,
            sorts,
        })
    }

    /// Judges a statement or tail, and goes past it. The rule that is told is the first that it
    /// violates, in the order of its checks. After an error nothing is said of what is known.
    pub fn pass(&mut self, alloc: Global, file: &File, form: &Form) -> Result<(), OwnFault>
        requires { IsFresh (environment_of self.old) form.now }
        ensures rule { IsJudged (rule_at file.now (environment_of self.old) (head_of form.now)) result }
        ensures ok { OnOk result (environment_of self.new ≡ after file.now (environment_of self.old) (head_of form.now)) }
    {
        match form {
            Form::Start {
                channel,
                session,
                active,
                serve,
                ..
            } => {
                let start = Start {
                    channel: channel.name,
                    session: session.name,
                    active: active.as_slice(),
                    serve: serve.as_slice(),
                };
                self.start(alloc, file, start)
            }
            Form::Value {
                from,
                expr,
                to,
                var,
                session,
                ..
            } => self.send(file, Message::new(from, to, session), expr, *var),
            Form::Label {
                from,
                to,
                session,
                label,
                ..
            } => self.select(file, Message::new(from, to, session), *label),
            Form::Give {
                from,
                to,
                session,
                given,
                ..
            } => self.give(file, Message::new(from, to, session), *given),
            Form::Set {
                process,
                var,
                expr,
                ..
            } => self.set(process, *var, expr),
            Form::Host {
                process,
                var,
                left,
                right,
                ..
            } => self.ask(process, *var, left, right),
            Form::Show { process, expr, .. } => judged(self.show_rule(process, expr)),
            Form::If { process, expr, .. } => judged(self.condition_rule(process, expr)),
            Form::Call {
                name,
                processes,
                sessions,
            } => judged(self.call_rule(file, name, processes.as_slice(), sessions.as_slice())),
            Form::End => judged(self.end_rule(file)),
        }
    }

    /// The same once more.
    pub fn copy(&self, alloc: Global) -> Result<Known, Memory>
        ensures { IfOk result (λ known. environment_of known ≡ environment_of self.now) }
    {
        let mut standings = Vec::new(alloc);
        standings.extend_from_slice(self.standings.as_slice())?;
        let owners = self.owners.copy(alloc)?;
        let sorts = self.sorts.copy(alloc)?;
        Ok(Known {
            standings,
            owners,
            sorts,
        })
    }
}

fn declared_standings(alloc: Global, sessions: &[SessionParam]) -> Result<Vec<Standing>, Memory>
    ensures { IfOk result (λ s. s.items ≡ map (λ k. stands k.name.name k.protocol.name k.state.name) sessions.now) }
{
    let mut standings = Vec::new(alloc);
    for session in sessions {
        standings.push(Standing {
            session: session.name.name,
            protocol: session.protocol.name,
            state: session.state.name,
        })?;
    }
    Ok(standings)
}

fn declared_owners(alloc: Global, sessions: &[SessionParam]) -> Result<Owners, Memory>
    requires { all_differ (map (λ k. k.name.name) sessions.now) ≡ true }
    ensures { IfOk result (λ owners. owners ≡ flat_map (λ k. listed k.name.name k.holders) sessions.now) }
{
    let mut owners = Owners::new(alloc);
    for session in sessions {
        owners.take_in(alloc, session.name.name, session.holders.as_slice())?;
    }
    Ok(owners)
}
