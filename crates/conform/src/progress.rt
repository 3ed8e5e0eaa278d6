//! How far the sessions of a log have come.

ghost use Rattle.std.specs.Prelude.{◌≡◌, ◌↔◌, [], IfOk, IsTrue, List as AList, option_map};
ghost use Rattle.chor_base.specs.declared.event.Event.{Event as AnEvent};
ghost use Rattle.typed_sources.specs.Context.{told_load, told_value};
ghost use Rattle.conform.specs.ByRole.{HasEndedByRole};
ghost use Rattle.conform.specs.Judged.{IsFit};
ghost use Rattle.conform.specs.Moves.{told};
ghost use Rattle.conform.specs.Progress.{protocols_in, IsAfter};
ghost use Rattle.conform.specs.Steps.{StandsAtEnd, AreAtEnd, IsOver};

use crate::deed::Carried;
use crate::session::Session;
use crate::types::all_types;
use chor_base::{List, Load, Memory, Sort, Value};
use chor_tree::File;
use local_types::{LocalState, LocalType};
use post_office::Queues;
use std::alloc::Global;

/// How far the sessions of a log have come, judged by the protocols of a file, role by role: where each
/// role stands in its local type, and what was sent and not yet received. Nothing is kept of the
/// processes.
#[derive(Drop)]
pub struct Progress {
    // The types of the roles of each protocol, as they stand in the file.
    pub(crate) types: List<List<LocalType>>,
    pub(crate) sessions: Vec<Session>,
    pub(crate) queues: Queues,
}

impl Progress {
    /// No event yet. It makes the local types of the file, which are its only use of time beside that
    /// for each event.
    pub fn new(alloc: Global, file: &File) -> Result<Progress, Memory>
        requires { IsFit file.now }
        ensures { IfOk result (IsAfter file.now []) }
    {
        Ok(Progress {
            types: all_types(alloc, file)?,
            sessions: Vec::new(alloc),
            queues: Queues::new(alloc),
        })
    }

    // What a value is, if it is told: an endpoint where its session has started.
    fn carried_value(&self, file: &File, value: Value) -> Option<Carried>
        ensures { option_map told result ≡ told_value (protocols_in file.now self.now.sessions.items) value }
    {
        match value {
            Value::Int(_) => Some(Carried::Sort(Sort::Int)),
            Value::Bool(_) => Some(Carried::Sort(Sort::Bool)),
            Value::Text(_) => Some(Carried::Sort(Sort::Text)),
            Value::Part(sid, role) => {
                let session = self.sessions.get(sid as usize)?;
                let protocol = file.protocols.as_slice().get(session.protocol())?;
                Some(Carried::Endpoint(protocol.name.name, role))
            }
        }
    }

    // What a load carries, if it is told.
    pub(crate) fn carried(&self, file: &File, load: Load) -> Option<Carried>
        ensures { option_map told result ≡ told_load (protocols_in file.now self.now.sessions.items) load }
    {
        match load {
            Load::Value(value) => self.carried_value(file, value),
            Load::Label(label) => Some(Carried::Label(label)),
        }
    }

    // Whether each role of a session stands at an end of its type.
    fn is_over(&self, session: &Session) -> bool
        ensures { IsTrue result ↔ IsOver self.now.types session.now }
    {
        match self.types.as_slice().get(session.protocol()) {
            Some(types) => are_at_end(types.as_slice(), session),
            None => true,
        }
    }

    /// Whether each role of each session has done all that it has to do.
    pub fn has_ended(&self, file: &File) -> bool
        requires { IsFit file.now }
        ensures { (h : AList AnEvent) → IsAfter file.now h self.now → IsTrue result ↔ HasEndedByRole file.now h }
    {
        for session in self.sessions.as_slice() {
            if !self.is_over(session) {
                return false;
            }
        }
        true
    }
}

// Whether the state of a type is an end, if it is there.
fn is_end(local: &LocalType, state: Option<u32>) -> bool
    ensures { IsTrue result ↔ StandsAtEnd local.now state }
{
    match state {
        Some(number) => match local.states.as_slice().get(number as usize) {
            Some(LocalState::End) => true,
            _ => false,
        },
        None => false,
    }
}

// Whether a session's roles, which have these types, stand at ends.
fn are_at_end(types: &[LocalType], session: &Session) -> bool
    ensures { IsTrue result ↔ AreAtEnd types.now session.now }
{
    for (place, local) in types.iter().enumerate() {
        if !is_end(local, session.state(place)) {
            return false;
        }
    }
    true
}
