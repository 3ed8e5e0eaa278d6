//! Lists of processes by what they wait for.

ghost use Rattle.std.specs.Prelude.{◌≡◌, ◌++◌, ◌∷◌, [], OnOk, if◌then◌else◌};
ghost use Rattle.waiting_processes.specs.declared.waits.Awaited.{Awaited as AnyAwaited};
ghost use Rattle.waiting_processes.specs.Lists.{same_awaited, waiting_for, IsPlaceOf, HasCome};
ghost use Rattle.waiting_processes.specs.Taken.{TakesWaiting};

use crate::waits::{Awaited, touched_by};
use chor_base::Memory;
use endpoint_machine::Head;
use indexmap::IndexMap;
use recent_places::RecentPlaces;
use std::alloc::Global;
use std::marker::Model;
use std::mem::replace;

// Processes in the order in which they came.
#[derive(Drop)]
pub struct Waiting {
    processes: Vec<u32>,
}

impl Model for Waiting {
    ghost use Rattle.std.specs.Prelude.{List, ℕ};

    ghost Value = { List ℕ };

    ghost view = { λ a. a.processes.items };
}

impl Waiting {
    // A process comes last.
    fn push(&mut self, process: u32) -> Result<(), Memory>
        ensures { OnOk result (self.new ≡ self.old ++ process ∷ []) }
    {
        self.processes.push(process)?;
        Ok(())
    }

    // Takes out all processes, and has this memory for those that come.
    fn take(&mut self, memory: Vec<u32>) -> Vec<u32>
        requires { memory.items ≡ [] }
        ensures taken { result.items ≡ self.old }
        ensures rest { self.new ≡ [] }
    {
        replace(&mut self.processes, memory)
    }
}

// The numbers by which the place of a list is kept.
fn numbers_of(wait: Awaited) -> (u32, u32, u32) {
    match wait {
        Awaited::Queue(sid, from, to) => (sid, from.0, to.0),
        Awaited::Channel(name) => (name.0, 0, 0),
    }
}

/// For each thing that processes wait for a list of processes. A list keeps its memory when it is
/// taken out, so that processes that come and go take memory at the first time only.
pub struct WaitingLists {
    alloc: Global,
    lists: IndexMap<Awaited, Waiting>,
    recent: RecentPlaces,
    // Memory of a list that was taken out.
    spare: Vec<u32>,
}

impl Drop for WaitingLists {
    fn drop(self) {
        let WaitingLists {
            alloc: _,
            lists: _,
            recent: _,
            spare: _,
        } = self;
    }
}

impl WaitingLists {
    /// Empty lists. They take no memory.
    pub fn new(alloc: Global) -> Self
        ensures { (w : AnyAwaited) → waiting_for result w ≡ [] }
    {
        WaitingLists {
            alloc,
            lists: IndexMap::new(alloc),
            recent: RecentPlaces::new(alloc),
            spare: Vec::new(alloc),
        }
    }

    /// The list of those that wait for this.
    pub fn get(&self, wait: Awaited) -> &[u32]
        ensures { result.now ≡ waiting_for self.now wait }
    {
        match self.lists.get(&wait) {
            Some(waiting) => waiting.processes.as_slice(),
            None => &[],
        }
    }

    // The place of the list of those that wait for this.
    fn place_of(&self, wait: Awaited) -> Option<usize>
        ensures { IsPlaceOf self.now.lists.entries wait result }
    {
        let recent = self.recent.get(numbers_of(wait));
        match self.lists.get_index(recent) {
            Some((other, _)) if wait == *other => Some(recent),
            _ => self.found(wait),
        }
    }

    // The same, looked for by hash.
    fn found(&self, wait: Awaited) -> Option<usize>
        ensures { IsPlaceOf self.now.lists.entries wait result }
    {
        match self.lists.get_full(&wait) {
            Some((place, _, _)) => Some(place),
            None => None,
        }
    }

    /// A process comes last in a list.
    pub fn add(&mut self, wait: Awaited, process: u32) -> Result<(), Memory>
        ensures { OnOk result (HasCome self.old wait process self.new) }
    {
        let Some(place) = self.place_of(wait) else {
            return self.open(wait, process);
        };
        self.recent.note(numbers_of(wait), place);
        match self.lists.get_index_mut(place) {
            Some(waiting) => waiting.push(process),
            None => unreachable!(),
        }
    }

    // Makes a list of one process.
    fn open(&mut self, wait: Awaited, process: u32) -> Result<(), Memory>
        requires { waiting_for self.old wait ≡ [] }
        ensures { OnOk result (HasCome self.old wait process self.new) }
    {
        let mut processes = Vec::new(self.alloc);
        processes.push(process)?;
        self.recent.reserve();
        self.lists.insert(wait, Waiting { processes })?;
        Ok(())
    }

    // No processes, with the memory that was given back.
    fn nobody(&mut self) -> Vec<u32>
        ensures list { result.items ≡ [] }
        ensures same { self.new.lists ≡ self.old.lists }
    {
        let mut memory = replace(&mut self.spare, Vec::new(self.alloc));
        memory.clear();
        memory
    }

    /// Gives back the memory of a list that was taken out.
    pub fn give_back(&mut self, memory: Vec<u32>)
        ensures { self.new.lists ≡ self.old.lists }
    {
        self.spare = memory;
    }

    // Takes out a list, and leaves it empty.
    fn take(&mut self, wait: Awaited) -> Vec<u32>
        ensures list { result.items ≡ waiting_for self.old wait }
        ensures rest { (w : AnyAwaited) → waiting_for self.new w ≡ (if same_awaited wait w then [] else waiting_for self.old w) }
    {
        let memory = self.nobody();
        let Some(place) = self.place_of(wait) else {
            return memory;
        };
        match self.lists.get_index_mut(place) {
            Some(waiting) => waiting.take(memory),
            None => unreachable!(),
        }
    }

    /// Takes out the list of those that may wait for what an event at a head changes, or nobody.
    pub fn take_touched(&mut self, head: Head) -> Vec<u32>
        ensures { TakesWaiting head self.old result.items self.new }
    {
        match touched_by(head) {
            Some(touched) => self.take(touched),
            None => self.nobody(),
        }
    }
}
