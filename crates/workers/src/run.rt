//! The run that workers share.

ghost use Rattle.std.specs.Prelude.{◌≡◌, ◌<◌, ◌≤◌, ◌^◌, [], true, false, length, IfOk, List as AnyList};
ghost use Rattle.chor_host.specs.Functions.{names_of, hosts_in};
ghost use Rattle.chor_host.specs.Tables.{functions_of};
ghost use Rattle.endpoint_code.specs.Faults.{IsFaultless};
ghost use Rattle.endpoint_code.specs.Network.{NetworkState};
ghost use Rattle.crew.specs.Turns.{FindsOut};
ghost use Rattle.workers.specs.Turns.{LeadsTo};
ghost use Rattle.workers.specs.Views.{origin_of, history_of, IsClosedBy, IsKept};

use crate::next::{Next, Shared};
use crate::origin::Origin;
use chor_base::{Entry, List, Memory};
use chor_host::HostTable;
use crew::{Crew, Turned};
use endpoint_code::Endpoints;
use endpoint_runs::Closed;
use net_core::are_few;
use post_office::Office;
use std::alloc::Global;
use std::marker::Model;
use turn_lock::Told;

/// How many workers make a run, of how many events at most.
#[derive(Clone, Copy)]
pub struct Task {
    pub workers: u32,
    pub steps: u64,
}

/// What workers have found of a run.
#[derive(Clone, Copy)]
pub enum Progress {
    /// It may go on.
    Open,
    /// It is closed so.
    Closed(Closed),
    /// One of them ran out of memory.
    Memory,
}

/// The run of a network that workers make together: the office, in which its events so far are, and what
/// the workers have found.
#[derive(Drop)]
pub struct SharedRun<'a> {
    office: Office<'a>,
    task: Task,
    progress: Progress,
    // Of each worker whether all its processes have ended, at the end of a run of as many events as asked for.
    ended: Vec<bool>,
}

impl<'a> Model for SharedRun<'a> {
    ghost use Rattle.workers.specs.Views.{RunView, run_of, IsKept};

    ghost Value = { RunView };

    ghost use Rattle.endpoint_code.specs.contracts.endpoints.Endpoints as whole;
    ghost use Rattle.std.specs.Coded.{codes};
    ghost use Rattle.std.specs.FinMap as fin;

    ghost coded = { Prim.hlevel (codes, whole.the_row.coded, fin.code) };

    ghost view = { λ a. run_of a.office a.task a.progress a.ended.items };

    ghost invariant = { λ a. IsKept (run_of a.office a.task a.progress a.ended.items) };
}

impl Told for SharedRun<'_> {
    type Origin = Origin;

    ghost use Rattle.workers.specs.Views.{origin_of, history_of};

    ghost origin = { origin_of };

    ghost history = { history_of };
}

impl<'a> SharedRun<'a> {
    /// No event yet. Where numbers of processes could reach 2^32 it answers want of memory.
    pub fn new(
        alloc: Global,
        endpoints: &'a Endpoints,
        hosts: &HostTable,
        capacity: Option<u32>,
        task: Task,
    ) -> Result<SharedRun<'a>, Memory>
        requires faultless { IsFaultless endpoints.now }
        requires workers { 1 ≤ task.workers }
        requires few { task.steps ≤ 1000000 }
        ensures endpoints { IfOk result (λ run. run.office.endpoints ≡ endpoints.now) }
        ensures capacity { IfOk result (λ run. run.office.capacity ≡ capacity) }
        ensures hosts { IfOk result (λ run. run.office.hosts ≡ hosts_in endpoints.now.names (functions_of hosts.now)) }
        ensures task { IfOk result (λ run. (run.workers ≡ task.workers) × (run.steps ≡ task.steps)) }
        ensures history { IfOk result (λ run. run.office.history ≡ []) }
        ensures processes { IfOk result (λ run. length endpoints.now.processes < 2 ^ 32) }
    {
        if !are_few(endpoints, task.steps as usize + 1) {
            return Err(Memory);
        }
        let office = Office::new(alloc, endpoints, hosts, capacity)?;
        let ended = vec![in alloc; false; task.workers as usize]?;
        Ok(SharedRun {
            office,
            task,
            progress: Progress::Open,
            ended,
        })
    }

    // Whether the run is closed, or a worker ran out of memory.
    fn is_over(&self) -> bool
        ensures { result ≡ false → self.now.progress ≡ Progress.Open }
    {
        match self.progress {
            Progress::Open => false,
            Progress::Closed(_) | Progress::Memory => true,
        }
    }

    // Takes down what a worker has found.
    fn settle(&mut self, crew: &Crew, turned: Turned) -> Next
        requires finds { FindsOut self.old.steps self.old.office crew.now turned }
        requires workers { crew.now.share.workers ≡ self.old.workers }
        ensures office { self.new.office ≡ self.old.office }
        ensures task { (self.new.workers ≡ self.old.workers) × (self.new.steps ≡ self.old.steps) }
    {
        match turned {
            Turned::Going => return Next::Goes,
            Turned::Resting => return Next::Waits,
            Turned::Ended => self.progress = Progress::Closed(Closed::Ended),
            Turned::Stuck(pid, why) => self.progress = Progress::Closed(Closed::Stuck(pid, why)),
            Turned::Full(false) => self.progress = Progress::Closed(Closed::Limit),
            Turned::Full(true) => self.ended[crew.worker() as usize] = true,
        }
        Next::Ends
    }

    // Whether each worker is marked: all its processes have ended.
    fn all_ended(&self) -> bool
        ensures { result ≡ true → IsClosedBy (origin_of self.now) (history_of self.now) Closed.Ended }
    {
        for ended in &self.ended {
            if !*ended {
                return false;
            }
        }
        true
    }

    /// How the run is closed. At as many events as asked for it has ended where all workers' processes
    /// have. One that was stopped before it was closed answers that memory ran out.
    pub fn close(&self) -> Result<Closed, Memory>
        ensures { IfOk result (IsClosedBy (origin_of self.now) (history_of self.now)) }
    {
        match self.progress {
            Progress::Closed(closed) => Ok(closed),
            Progress::Memory => Err(Memory),
            Progress::Open => if self.all_ended() {
                Ok(Closed::Ended)
            } else {
                Err(Memory)
            },
        }
    }

    /// The events, which are a run of the programs.
    pub fn history(&self) -> &[Entry]
        ensures entries { result.now ≡ history_of self.now }
        ensures run { (n : NetworkState) × LeadsTo (origin_of self.now) result.now n }
        ensures kept { IsKept self.now }
    {
        self.office.history()
    }

    /// A copy of the events.
    pub fn copied(&self, alloc: Global) -> Result<List<Entry>, Memory>
        ensures entries { IfOk result (λ entries. entries ≡ history_of self.now) }
        ensures run { IfOk result (λ entries. (n : NetworkState) × LeadsTo (origin_of self.now) entries n) }
        ensures kept { IsKept self.now }
    {
        let history = self.history();
        let mut entries = List::new(alloc);
        for entry in history {
            entries.push(entry.copy(alloc)?)?;
        }
        Ok(entries)
    }
}

impl Shared for SharedRun<'_> {
    ghost about = { λ o. o };

    fn turn(&mut self, crew: &mut Crew, endpoints: &Endpoints) -> Next {
        if self.is_over() {
            return Next::Ends;
        }
        let alloc = *self.ended.allocator();
        match crew.turn(alloc, endpoints, &mut self.office, self.task.steps) {
            Ok(turned) => self.settle(crew, turned),
            Err(_) => {
                self.progress = Progress::Memory;
                Next::Ends
            }
        }
    }

    fn stop(&mut self) {
        self.progress = Progress::Memory;
    }

    fn entries(&self) -> &[Entry] {
        self.history()
    }
}
