//! A turn.

ghost use Rattle.std.specs.Prelude.{◌≡◌, ◌≢◌, ◌≤◌, [], true, false, length, drop, map, All, OnOk, IfOk};
ghost use Rattle.endpoint_code.specs.Faults.{IsFaultless};
ghost use Rattle.endpoint_machine.specs.Bound.{IsBound};
ghost use Rattle.session_starts.specs.Machines.{standing_of};
ghost use Rattle.crew.specs.Ahead.{Trails, IsUpToDate};
ghost use Rattle.crew.specs.Crews.{entry_worker};
ghost use Rattle.post_office.specs.Owners.{IsMadeByOwner};
ghost use Rattle.crew.specs.Turns.{Adds, HaveEnded, FindsOut, FitsSteps, is_last};

use crate::crew::Crew;
use chor_base::{Memory, Why};
use endpoint_code::Endpoints;
use endpoint_machine::Head;
use post_office::{Office, Standing};
use std::alloc::Global;

/// What a worker finds at the end of its turn.
#[derive(Clone, Copy)]
pub enum Turned {
    /// It made events, and the run may go on.
    Going,
    /// It made none, and another worker may go on.
    Resting,
    /// Every process has ended.
    Ended,
    /// No process can step. The first that hasn't ended, and why it can't.
    Stuck(u32, Why),
    /// There are as many events as asked for. Whether all processes of this worker have ended.
    Full(bool),
}

// Whether this is the end of a process.
fn is_end(head: Head) -> bool
    ensures { result ≡ is_last head }
{
    match head {
        Head::Ended => true,
        Head::Join(_, _) | Head::Out(_, _, _) | Head::Take(_, _, _) | Head::Local => false,
    }
}

impl Crew {
    /// Whether no event is left to note.
    pub fn is_noted(&self) -> bool
        ensures yes { result ≡ true → self.now.notes ≡ [] }
        ensures no { result ≡ false → self.now.notes ≢ [] }
    {
        self.notes.len() == 0
    }

    // Whether all processes of the worker have ended, and none has an event to note.
    fn have_ended(&self, endpoints: &Endpoints) -> bool
        requires faultless { IsFaultless endpoints.now }
        requires bound { All (IsBound endpoints.now) (map standing_of self.now.machines) }
        ensures { HaveEnded endpoints.now self.now result }
    {
        if !self.is_noted() {
            return false;
        }
        for machine in &self.machines {
            if !is_end(machine.head(endpoints)) {
                return false;
            }
        }
        true
    }

    // What the worker finds. What is posted is looked at where it has made no event since there were so
    // many.
    fn find_out(
        &self,
        endpoints: &Endpoints,
        office: &Office<'_>,
        steps: u64,
        before: usize,
    ) -> Turned
        requires faultless { IsFaultless endpoints.now }
        requires endpoints { office.now.endpoints ≡ endpoints.now }
        requires after { IsUpToDate office.now self.now }
        requires within { length office.now.history ≤ steps }
        ensures { FindsOut steps office.now self.now result }
    {
        let events = office.history().len();
        if events as u64 >= steps {
            return Turned::Full(self.have_ended(endpoints));
        }
        if events > before {
            return Turned::Going;
        }
        match office.standing() {
            Standing::Ended => Turned::Ended,
            Standing::Stuck(pid, why) => Turned::Stuck(pid, why),
            Standing::Going => Turned::Resting,
        }
    }

    // The second half of a turn: the events that aren't local, and what is posted.
    fn move_on(
        &mut self,
        alloc: Global,
        endpoints: &Endpoints,
        office: &mut Office<'_>,
        steps: u64,
    ) -> Result<(), Memory>
        requires faultless { IsFaultless endpoints.now }
        requires endpoints { office.old.endpoints ≡ endpoints.now }
        requires after { IsUpToDate office.old self.old }
        requires within { length office.old.history ≤ steps }
        requires fits { FitsSteps endpoints.now steps }
        ensures adds { Adds self.old.share office.old office.new }
        ensures within { length office.new.history ≤ steps }
        ensures share { OnOk result (self.new.share ≡ self.old.share) }
        ensures after { OnOk result (IsUpToDate office.new self.new) }
    {
        if self.is_noted() {
            self.act(alloc, endpoints, office, steps)?;
            self.post_all(endpoints, office)?;
        }
        Ok(())
    }

    /// Makes a turn: goes through the new entries, notes the local events, makes events that aren't local,
    /// and posts what the processes do.
    pub fn turn(
        &mut self,
        alloc: Global,
        endpoints: &Endpoints,
        office: &mut Office<'_>,
        steps: u64,
    ) -> Result<Turned, Memory>
        requires faultless { IsFaultless endpoints.now }
        requires endpoints { office.old.endpoints ≡ endpoints.now }
        requires trails { Trails office.old self.old }
        requires owned { All (IsMadeByOwner self.old.share.workers endpoints.now) office.old.history }
        requires others { All (λ x. x.worker ≢ entry_worker self.old) (drop self.old.seen office.old.history) }
        requires within { length office.old.history ≤ steps }
        requires fits { FitsSteps endpoints.now steps }
        ensures adds { Adds self.old.share office.old office.new }
        ensures within { length office.new.history ≤ steps }
        ensures share { OnOk result (self.new.share ≡ self.old.share) }
        ensures after { OnOk result (IsUpToDate office.new self.new) }
        ensures finds { IfOk result (λ turned. FindsOut steps office.new self.new turned) }
    {
        let before = office.history().len();
        self.catch_up(alloc, endpoints, office)?;
        self.note_all(office, steps)?;
        self.move_on(alloc, endpoints, office, steps)?;
        Ok(self.find_out(endpoints, office, steps, before))
    }
}
