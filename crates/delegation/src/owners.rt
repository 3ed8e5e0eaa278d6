//! Who holds which role of which session.

ghost use Rattle.std.specs.Prelude.{◌≡◌, ◌==◌, ◌++◌, [], map, IfOk, OnOk, OnErr};
ghost use Rattle.std.specs.List.{list_any};
ghost use Rattle.delegation.specs.Checks.{IsJudged, IsRuling, all_differ};
ghost use Rattle.delegation.specs.Owners.{Lacks, held, holder_of, holds, holds_some, started, start_check, listed, passed, pass_check};
ghost use Rattle.delegation.specs.Spans.{AreOf, entries_of, role_holder, passed_role};

use crate::fault::OwnFault;
use crate::held::{Held, all_differ};
use chor_base::{Memory, NameId, NameMap, Rule};
use chor_tree::{Named, Part};
use std::alloc::Global;
use std::marker::Model;

// Where the entries of a session stand: at which place they begin, and how many there are.
#[derive(Clone, Copy)]
struct Span {
    first: usize,
    len: usize,
}

/// The holders of roles. A session's roles are held from its start on, and pass to others only by
/// delegation. Contracts see the list of entries, one for each role of each session.
pub struct Owners {
    entries: Vec<Held>,
    // A session's entries stand together.
    spans: NameMap<Span>,
}

impl Drop for Owners {
    fn drop(self) {
        let Owners {
            entries: _,
            spans: _,
        } = self;
    }
}

impl Model for Owners {
    ghost use Rattle.std.specs.Prelude.{List};
    ghost use Rattle.delegation.specs.declared.held.Held.{Held};

    ghost Value = { List Held };

    ghost use Rattle.delegation.specs.Spans.{AreSpans};

    ghost view = { λ a. a.entries.items };

    ghost invariant = { λ a. AreSpans a.entries.items a.spans.map };
}

impl Owners {
    /// Nobody holds a role. It takes no memory.
    pub fn new(alloc: Global) -> Self
        ensures { result ≡ [] }
    {
        Owners {
            entries: Vec::new(alloc),
            spans: NameMap::new(alloc),
        }
    }

    /// The same holders once more.
    pub fn copy(&self, alloc: Global) -> Result<Self, Memory>
        ensures { IfOk result (λ owners. owners ≡ self.now) }
    {
        let mut entries = Vec::new(alloc);
        entries.extend_from_slice(self.entries.as_slice())?;
        let spans = self.spans.copy(alloc)?;
        Ok(Owners { entries, spans })
    }

    /// The holder of a role, if it has one.
    #[tactic(auto, using(crate::proofs::Parts::holder_among))]
    pub fn holder(&self, session: NameId, role: NameId) -> Option<NameId>
        ensures { result ≡ holder_of self.now session role }
    {
        holder_in(self.entries_of(session), role)
    }

    /// Whether a process holds a role.
    pub fn holds(&self, session: NameId, role: NameId, process: NameId) -> bool
        ensures { result ≡ holds self.now session role process }
    {
        match self.holder(session, role) {
            Some(holder) => process == holder,
            None => false,
        }
    }

    /// Whether a process holds some role of a session.
    #[tactic(auto, using(crate::proofs::Parts::some_among))]
    pub fn holds_some(&self, session: NameId, process: NameId) -> bool
        ensures { result ≡ holds_some self.now session process }
    {
        has_process(self.entries_of(session), process)
    }

    // The entries of a session.
    fn entries_of(&self, session: NameId) -> &[Held]
        ensures { result.now ≡ entries_of session self.now }
    {
        match self.spans.get(session) {
            Some(span) => &self.entries[span.first..span.first + span.len],
            None => &[],
        }
    }

    /// Starts a session, in which each part has its role. T9 is violated where a process has two
    /// parts.
    pub fn start(
        &mut self,
        alloc: Global,
        session: NameId,
        active: &[Part],
        serve: &[Part],
    ) -> Result<(), OwnFault>
        requires { Lacks session self.old }
        ensures rule { IsJudged (start_check (active.now ++ serve.now)) result }
        ensures ok { OnOk result (self.new ≡ self.old ++ started session (active.now ++ serve.now)) }
        ensures err { OnErr result (self.new ≡ self.old) }
    {
        if !have_one_part(alloc, active, serve)? {
            return Err(OwnFault::Rule(Rule::T9));
        }
        let entries = started(alloc, session, active, serve)?;
        self.add(session, entries.as_slice())?;
        Ok(())
    }

    /// Takes in a session of which these roles have these holders, given as pairs. Its other roles
    /// have none.
    pub fn take_in(
        &mut self,
        alloc: Global,
        session: NameId,
        holders: &[(Named, Named)],
    ) -> Result<(), Memory>
        requires { Lacks session self.old }
        ensures ok { OnOk result (self.new ≡ self.old ++ listed session holders.now) }
        ensures err { OnErr result (self.new ≡ self.old) }
    {
        let entries = listed(alloc, session, holders)?;
        self.add(session, entries.as_slice())
    }

    // Adds the entries of a session that has none.
    fn add(&mut self, session: NameId, entries: &[Held]) -> Result<(), Memory>
        requires none { Lacks session self.old }
        requires own { AreOf session entries.now }
        ensures ok { OnOk result (self.new ≡ self.old ++ entries.now) }
        ensures err { OnErr result (self.new ≡ self.old) }
    {
        self.spans.reserve()?;
        let span = Span {
            first: self.entries.len(),
            len: entries.len(),
        };
        self.entries.extend_from_slice(entries)?;
        self.spans.set(session, span);
        Ok(())
    }

    /// Passes a role on from one process to another. T1 is violated where the first doesn't hold
    /// it, else T9 where the second holds a role of the session. It takes no memory.
    pub fn pass(
        &mut self,
        session: NameId,
        role: NameId,
        from: NameId,
        to: NameId,
    ) -> Result<(), Rule>
        ensures rule { IsRuling (pass_check self.old session role from to) result }
        ensures ok { OnOk result (self.new ≡ passed self.old session role to) }
        ensures err { OnErr result (self.new ≡ self.old) }
    {
        if !self.holds(session, role, from) {
            return Err(Rule::T1);
        }
        if self.holds_some(session, to) {
            return Err(Rule::T9);
        }
        self.set_holder(session, role, to);
        Ok(())
    }

    fn set_holder(&mut self, session: NameId, role: NameId, to: NameId)
        ensures { self.new ≡ passed self.old session role to }
    {
        if let Some(span) = self.spans.get(session) {
            set_holder_in(
                &mut self.entries[span.first..span.first + span.len],
                role,
                to,
            );
        }
    }
}

impl Held {
    // The same, with another process where it is this role.
    fn passed(self, role: NameId, to: NameId) -> Held
        ensures { result ≡ passed_role role to self }
    {
        if self.role == role {
            Held {
                process: to,
                ..self
            }
        } else {
            self
        }
    }
}

// The holder of a role, among the entries of its session.
fn holder_in(entries: &[Held], role: NameId) -> Option<NameId>
    ensures { result ≡ role_holder entries.now role }
{
    for held in entries {
        if held.role == role {
            return Some(held.process);
        }
    }
    None
}

// Whether a process holds one of these roles.
fn has_process(entries: &[Held], process: NameId) -> bool
    ensures { result ≡ list_any (λ h. h.process.0 == process.0) entries.now }
{
    entries.iter().any(|held| held.process == process)
}

fn set_holder_in(entries: &mut [Held], role: NameId, to: NameId)
    ensures { entries.new ≡ map (passed_role role to) entries.old }
{
    for held in entries.iter_mut() {
        *held = held.passed(role, to);
    }
}

// Whether no process has two parts.
fn have_one_part(alloc: Global, active: &[Part], serve: &[Part]) -> Result<bool, Memory>
    ensures { IfOk result (λ b. b ≡ all_differ (map (λ q. q.process.name) (active.now ++ serve.now))) }
{
    let mut processes = Vec::new(alloc);
    for part in active {
        processes.push(part.process.name)?;
    }
    for part in serve {
        processes.push(part.process.name)?;
    }
    Ok(all_differ(processes.as_slice()))
}

fn started(
    alloc: Global,
    session: NameId,
    active: &[Part],
    serve: &[Part],
) -> Result<Vec<Held>, Memory>
    ensures { IfOk result (λ entries. entries.items ≡ started session (active.now ++ serve.now)) }
{
    let mut entries = Vec::new(alloc);
    for part in active {
        entries.push(of_part(session, part))?;
    }
    for part in serve {
        entries.push(of_part(session, part))?;
    }
    Ok(entries)
}

fn of_part(session: NameId, part: &Part) -> Held
    ensures { result ≡ held session part.now.role.name part.now.process.name }
{
    Held {
        session,
        role: part.role.name,
        process: part.process.name,
    }
}

fn listed(alloc: Global, session: NameId, holders: &[(Named, Named)]) -> Result<Vec<Held>, Memory>
    ensures { IfOk result (λ entries. entries.items ≡ listed session holders.now) }
{
    let mut entries = Vec::new(alloc);
    for (role, process) in holders {
        entries.push(Held {
            session,
            role: role.name,
            process: process.name,
        })?;
    }
    Ok(entries)
}
