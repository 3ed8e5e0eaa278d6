//! What each of few processes does next, kept from event to event.

ghost use Rattle.std.specs.Prelude.{◌≡◌, ◌<◌, ◌+◌, ◌^◌, ◌++◌, ◌∷◌, [], if◌then◌else◌, length, IfOk, OnOk, Some, false, slice_get};
ghost use Rattle.endpoint_code.specs.NetworkRuns.{all_ended};
ghost use Rattle.endpoint_code.specs.Scheduled.{listed, picked_of};
ghost use Rattle.net_core.specs.Heads.{EachStands, is_joining_head};
ghost use Rattle.net_core.specs.Shown.{ShowsAll, ShowsOthers};

use crate::answer::Picked;
use crate::network::Network;
use crate::parts::place_of_pick;
use crate::scheduler::Kept;
use crate::standing::{has_ended, is_joining};
use chor_base::Memory;
use chor_host::HostTable;
use endpoint_machine::Head;
use std::alloc::Global;

// A process comes last among these, if it is one of those that count.
fn add_if(pids: &mut Vec<u32>, pid: u32, counts: bool) -> Result<(), Memory>
    ensures { OnOk result (pids.new.items ≡ (if counts then pids.old.items ++ pid ∷ [] else pids.old.items)) }
{
    if counts {
        pids.push(pid)?;
    }
    Ok(())
}

/// The next action of each process, in order, and those that may be picked.
pub struct Few {
    heads: Vec<Head>,
    pids: Vec<u32>,
}

impl Drop for Few {
    fn drop(self) {
        let Few { heads: _, pids: _ } = self;
    }
}

impl Few {
    /// The next actions of the processes of a network.
    pub fn new(alloc: Global, network: &Network<'_>) -> Result<Self, Memory>
        ensures { IfOk result (λ few. ShowsAll network.now.endpoints network.now.state few.heads.items) }
    {
        let mut few = Few {
            heads: Vec::new(alloc),
            pids: Vec::new(alloc),
        };
        few.look(network)?;
        Ok(few)
    }

    // Looks at each process.
    fn look(&mut self, network: &Network<'_>) -> Result<(), Memory>
        ensures { OnOk result (ShowsAll network.now.endpoints network.now.state self.new.heads.items) }
    {
        self.heads.clear();
        for pid in 0..network.count() {
            self.heads.push(network.head(pid))?;
        }
        Ok(())
    }

    /// The next actions after an event of a process with this head. Only a start moves others too.
    pub fn follow(&mut self, network: &Network<'_>, pid: u32, head: Head) -> Result<(), Memory>
        requires there { pid < length network.now.state.machines }
        requires others { is_joining_head head ≡ false → ShowsOthers network.now.endpoints network.now.state pid self.old.heads.items }
        ensures { OnOk result (ShowsAll network.now.endpoints network.now.state self.new.heads.items) }
    {
        if is_joining(head) {
            return self.look(network);
        }
        self.heads[pid as usize] = network.head(pid);
        Ok(())
    }

    /// Finds the processes that may be picked. Tells whether every process has ended.
    pub fn survey(&mut self, network: &Network<'_>) -> Result<bool, Memory>
        requires { ShowsAll network.now.endpoints network.now.state self.old.heads.items }
        ensures ended { IfOk result (λ ended. ended ≡ all_ended network.now.endpoints network.now.state.machines) }
        ensures listed { OnOk result (self.new.pids.items ≡ listed network.now.endpoints network.now.capacity network.now.state) }
        ensures stand { EachStands network.now.endpoints network.now.state }
        ensures kept { self.new.heads.items ≡ self.old.heads.items }
    {
        self.pids.clear();
        let mut ended = true;
        for pid in 0..network.count() {
            let head = self.heads[pid as usize];
            ended &= has_ended(head);
            add_if(&mut self.pids, pid, network.is_listed(pid, head))?;
        }
        Ok(ended)
    }

    /// The process that the pick rule takes among those found last, after so many events.
    pub fn pick(&self, seed: u64, events: u64) -> Option<u32>
        requires small { seed < 2 ^ 33 }
        requires few { events < 2 ^ 63 }
        ensures { result ≡ picked_of self.now.pids.items (seed + events) }
    {
        let pids = self.pids.as_slice();
        let count = pids.len() as u64;
        if count == 0 {
            return None;
        }
        Some(pids[place_of_pick(seed, events, count) as usize])
    }

    /// The next action of a process.
    pub fn head(&self, pid: u32) -> Head
        requires { pid < length self.now.heads.items }
        ensures { slice_get self.now.heads.items pid ≡ Some result }
    {
        self.heads[pid as usize]
    }
}

impl Kept for Few {
    ghost is_true = { λ e cap n few. ShowsAll e n few.heads.items };

    fn turn(
        &mut self,
        network: &mut Network<'_>,
        hosts: &HostTable,
        seed: u64,
        steps: u64,
    ) -> Option<Picked> {
        let Ok(ended) = self.survey(network) else {
            return Some(Picked::Memory);
        };
        if ended {
            return Some(Picked::Ended);
        }
        if network.events() == steps {
            return Some(Picked::Limit);
        }
        let Some(pid) = self.pick(seed, network.events()) else {
            return Some(network.stuck());
        };
        let head = self.head(pid);
        match network.go(0, pid, head, hosts) {
            Ok(()) => match self.follow(network, pid, head) {
                Ok(()) => None,
                Err(_) => Some(Picked::Memory),
            },
            Err(_) => Some(Picked::Memory),
        }
    }
}
