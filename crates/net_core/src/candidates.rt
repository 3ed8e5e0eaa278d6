//! Which processes the pick rule may take, kept from event to event.

ghost use Rattle.std.specs.Prelude.{◌≡◌, ℕ, ◌<◌, ◌≤◌, ◌^◌, length, Option, false, IfOk, OnOk, ◌∷◌, []};
ghost use Rattle.endpoint_code.specs.declared.endpoints.Endpoints.{Endpoints as AnyEndpoints};
ghost use Rattle.endpoint_code.specs.Network.{NetworkState};
ghost use Rattle.endpoint_code.specs.NetworkRuns.{all_ended};
ghost use Rattle.endpoint_code.specs.Scheduled.{picked};
ghost use Rattle.waiting_processes.specs.Taken.{IsIn};
ghost use Rattle.net_core.specs.Heads.{Shows, is_listed_at};
ghost use Rattle.net_core.specs.Candidates.{joined_by, IsUpToDate, HasPlaces, HasGrownTo, AreBelow, ListsAll, IsNoted, IsJudged, IsSettled, Enters, Judges, Renews, TakesTouched, HasMoved};

use crate::answer::Picked;
use crate::network::Network;
use crate::parts::place_of_pick;
use crate::scheduler::Kept;
use crate::standing::{has_ended, is_joining};
use chor_base::{Memory, NameId};
use chor_host::HostTable;
use counted_bits::CountedBits;
use endpoint_machine::Head;
use std::alloc::Global;
use waiting_processes::{Awaited, WaitingLists, awaited_by};

/// Where a process stood before its event, and how many processes there were.
#[derive(Clone, Copy)]
pub struct Past {
    pub pid: u32,
    pub head: Head,
    pub count: u32,
}

// The channel that a process joins at a head.
fn joined_by(head: Head) -> Option<NameId>
    ensures { result ≡ joined_by head }
{
    match head {
        Head::Join(channel, _) => Some(channel),
        _ => None,
    }
}

/// Which processes the pick rule may take, which haven't ended, and what the others wait for.
pub struct Candidates {
    listed: CountedBits,
    unended: CountedBits,
    waiting: WaitingLists,
}

impl Drop for Candidates {
    fn drop(self) {
        let Candidates {
            listed: _,
            unended: _,
            waiting: _,
        } = self;
    }
}

impl Candidates {
    /// The candidates of a network.
    pub fn new(alloc: Global, network: &Network<'_>) -> Result<Self, Memory>
        ensures { IfOk result (IsUpToDate network.now.endpoints network.now.capacity network.now.state) }
    {
        let mut candidates = Candidates {
            listed: CountedBits::new(alloc),
            unended: CountedBits::new(alloc),
            waiting: WaitingLists::new(alloc),
        };
        candidates.grow(network.count())?;
        candidates.enter_each(network)?;
        candidates.judge_each(network);
        Ok(candidates)
    }

    /// Whether every process has ended.
    pub fn have_ended(&self) -> bool
        ensures { (e : AnyEndpoints) (cap : Option ℕ) (n : NetworkState) → IsUpToDate e cap n self.now → result ≡ all_ended e n.machines }
    {
        self.unended.count() == 0
    }

    /// The process that the pick rule takes after so many events.
    pub fn pick(&mut self, seed: u64, events: u64) -> Option<u32>
        requires small { seed < 2 ^ 33 }
        requires few { events < 2 ^ 63 }
        ensures stays { self.new ≡ self.old }
        ensures picks { (e : AnyEndpoints) (cap : Option ℕ) (n : NetworkState) → IsUpToDate e cap n self.old → result ≡ picked e cap seed events n }
    {
        let count = u64::from(self.listed.count());
        if count == 0 {
            return None;
        }
        self.listed.nth(place_of_pick(seed, events, count) as u32)
    }

    /// What has become of the processes by an event of one of them.
    pub fn follow(&mut self, network: &Network<'_>, past: Past) -> Result<(), Memory>
        requires { HasMoved network.now.endpoints network.now.capacity network.now.state past self.old }
        ensures { OnOk result (IsUpToDate network.now.endpoints network.now.capacity network.now.state self.new) }
    {
        self.grow(network.count())?;
        let pids = self.take_touched(network.capacity(), network.count(), past)?;
        let joins = self.enter_all(network, pids.as_slice())?;
        let done = joined_by(past.head);
        self.renew_entered(network, pids.as_slice(), done, joins);
        self.waiting.give_back(pids);
        Ok(())
    }

    // Takes out of the lists the processes that an event may have moved, and those that may wait
    // for what it has changed.
    fn take_touched(
        &mut self,
        capacity: Option<u32>,
        count: u32,
        past: Past,
    ) -> Result<Vec<u32>, Memory>
        requires places { HasPlaces count self.old }
        requires there { past.pid < past.count }
        requires kept { past.count ≤ count }
        ensures { IfOk result (λ pids. TakesTouched capacity past count self.old pids.items self.new) }
    {
        let mut pids = self.waiting.take_touched(past.head);
        if awaited_by(capacity, past.head).is_none() {
            pids.push(past.pid)?;
        }
        for pid in past.count..count {
            pids.push(pid)?;
        }
        Ok(pids)
    }

    // Has places for so many processes.
    fn grow(&mut self, count: u32) -> Result<(), Memory>
        requires places { HasPlaces (length self.old.listed) self.old }
        requires more { length self.old.listed ≤ count }
        ensures { OnOk result (HasGrownTo count self.old self.new) }
    {
        for _ in self.listed.len()..count {
            self.listed.push(false)?;
            self.unended.push(false)?;
        }
        Ok(())
    }

    // Notes anew whether a process has ended, and what it waits for, and judges it unless it joins.
    // Tells whether it joins.
    fn enter(&mut self, network: &Network<'_>, pid: u32) -> Result<bool, Memory>
        requires there { pid < length network.now.state.machines }
        requires places { HasPlaces (length network.now.state.machines) self.old }
        ensures { IfOk result (λ joins. Enters network.now.endpoints network.now.capacity network.now.state self.old (pid ∷ []) joins self.new) }
    {
        let head = network.head(pid);
        self.unended.set(pid, !has_ended(head));
        let joins = settle(&mut self.listed, network, pid, head);
        match awaited_by(network.capacity(), head) {
            Some(awaited) => {
                self.waiting.add(awaited, pid)?;
                Ok(joins)
            }
            None => Ok(joins),
        }
    }

    // The same of each of these processes. Tells whether one of them joins.
    fn enter_all(&mut self, network: &Network<'_>, pids: &[u32]) -> Result<bool, Memory>
        requires there { AreBelow (length network.now.state.machines) pids.now }
        requires places { HasPlaces (length network.now.state.machines) self.old }
        ensures { IfOk result (λ joins. Enters network.now.endpoints network.now.capacity network.now.state self.old pids.now joins self.new) }
    {
        let mut joins = false;
        for pid in pids {
            let also = self.enter(network, *pid)?;
            joins |= also;
        }
        Ok(joins)
    }

    // Judges anew those of these processes that join, if one does, where the others were judged when
    // they were entered.
    fn renew_entered(
        &mut self,
        network: &Network<'_>,
        pids: &[u32],
        done: Option<NameId>,
        joins: bool,
    )
        requires there { AreBelow (length network.now.state.machines) pids.now }
        requires places { length self.old.listed ≡ length network.now.state.machines }
        requires lists { ListsAll network.now.endpoints network.now.capacity network.now.state self.old.waiting }
        requires settled { joins ≡ false → (q : ℕ) → IsIn pids.now q → IsSettled network.now.endpoints network.now.capacity network.now.state self.old.listed q }
        ensures unended { self.new.unended ≡ self.old.unended }
        ensures waiting { self.new.waiting ≡ self.old.waiting }
        ensures renews { Renews network.now.endpoints network.now.capacity network.now.state done self.old.listed pids.now self.new.listed }
    {
        if !joins {
            return;
        }
        renew_all(&mut self.listed, &self.waiting, network, pids, done);
    }

    // The same of every process.
    fn enter_each(&mut self, network: &Network<'_>) -> Result<(), Memory>
        requires { HasPlaces (length network.now.state.machines) self.old }
        ensures places { OnOk result (HasPlaces (length network.now.state.machines) self.new) }
        ensures noted { OnOk result ((q : ℕ) → q < length network.now.state.machines → IsNoted network.now.endpoints network.now.capacity network.now.state self.new q) }
    {
        for pid in 0..network.count() {
            self.enter(network, pid)?;
        }
        Ok(())
    }

    // Judges anew whether the pick rule may take each process.
    fn judge_each(&mut self, network: &Network<'_>)
        requires places { HasPlaces (length network.now.state.machines) self.old }
        requires lists { ListsAll network.now.endpoints network.now.capacity network.now.state self.old.waiting }
        ensures unended { self.new.unended ≡ self.old.unended }
        ensures waiting { self.new.waiting ≡ self.old.waiting }
        ensures count { length self.new.listed ≡ length self.old.listed }
        ensures judged { (q : ℕ) → q < length network.now.state.machines → IsJudged network.now.endpoints network.now.capacity network.now.state self.new.listed q }
    {
        for pid in 0..network.count() {
            let head = network.head(pid);
            judge(&mut self.listed, &self.waiting, network, pid, head);
        }
    }
}

impl Kept for Candidates {
    ghost is_true = { IsUpToDate };

    fn turn(
        &mut self,
        network: &mut Network<'_>,
        hosts: &HostTable,
        seed: u64,
        steps: u64,
    ) -> Option<Picked> {
        if self.have_ended() {
            return Some(Picked::Ended);
        }
        if network.events() == steps {
            return Some(Picked::Limit);
        }
        let count = network.count();
        let Some(pid) = self.pick(seed, network.events()) else {
            return Some(network.stuck());
        };
        let head = network.head(pid);
        match network.go(0, pid, head, hosts) {
            Ok(()) => match self.follow(network, Past { pid, head, count }) {
                Ok(()) => None,
                Err(_) => Some(Picked::Memory),
            },
            Err(_) => Some(Picked::Memory),
        }
    }
}

// Whether the pick rule may take a process with this head. Partners are looked for among those who
// join its channel alone.
fn is_listed(waiting: &WaitingLists, network: &Network<'_>, pid: u32, head: Head) -> bool
    requires there { pid < length network.now.state.machines }
    requires lists { ListsAll network.now.endpoints network.now.capacity network.now.state waiting.now }
    requires shows { Shows network.now.endpoints network.now.state pid head }
    ensures { result ≡ is_listed_at network.now.endpoints network.now.capacity network.now.state pid }
{
    match head {
        Head::Join(channel, role) => {
            let joiners = waiting.get(Awaited::Channel(channel));
            network.leads(pid, head) && network.are_joined_among(channel, role, joiners)
        }
        _ => network.is_listed(pid, head),
    }
}

// Judges a process with this head, unless it joins. Tells whether it does.
fn settle(listed: &mut CountedBits, network: &Network<'_>, pid: u32, head: Head) -> bool
    requires there { pid < length network.now.state.machines }
    requires places { length listed.old ≡ length network.now.state.machines }
    requires shows { Shows network.now.endpoints network.now.state pid head }
    ensures kept { Judges network.now.endpoints network.now.capacity network.now.state listed.old [] listed.new }
    ensures settled { result ≡ false → IsSettled network.now.endpoints network.now.capacity network.now.state listed.new pid }
{
    if is_joining(head) {
        return true;
    }
    listed.set(pid, network.is_listed(pid, head));
    false
}

// Judges anew whether the pick rule may take a process with this head.
fn judge(
    listed: &mut CountedBits,
    waiting: &WaitingLists,
    network: &Network<'_>,
    pid: u32,
    head: Head,
)
    requires there { pid < length network.now.state.machines }
    requires places { length listed.old ≡ length network.now.state.machines }
    requires lists { ListsAll network.now.endpoints network.now.capacity network.now.state waiting.now }
    requires shows { Shows network.now.endpoints network.now.state pid head }
    ensures { Judges network.now.endpoints network.now.capacity network.now.state listed.old (pid ∷ []) listed.new }
{
    listed.set(pid, is_listed(waiting, network, pid, head));
}

// The same of each of these processes.
fn judge_all(listed: &mut CountedBits, waiting: &WaitingLists, network: &Network<'_>, pids: &[u32])
    requires there { AreBelow (length network.now.state.machines) pids.now }
    requires places { length listed.old ≡ length network.now.state.machines }
    requires lists { ListsAll network.now.endpoints network.now.capacity network.now.state waiting.now }
    ensures { Judges network.now.endpoints network.now.capacity network.now.state listed.old pids.now listed.new }
{
    for pid in pids {
        judge(listed, waiting, network, *pid, network.head(*pid));
    }
}

// Judges anew a process, and all who join the channel that it joins, unless it is this one.
fn renew(
    listed: &mut CountedBits,
    waiting: &WaitingLists,
    network: &Network<'_>,
    pid: u32,
    done: Option<NameId>,
)
    requires there { pid < length network.now.state.machines }
    requires places { length listed.old ≡ length network.now.state.machines }
    requires lists { ListsAll network.now.endpoints network.now.capacity network.now.state waiting.now }
    ensures { Renews network.now.endpoints network.now.capacity network.now.state done listed.old (pid ∷ []) listed.new }
{
    let head = network.head(pid);
    judge(listed, waiting, network, pid, head);
    match awaited_by(network.capacity(), head) {
        Some(Awaited::Channel(channel)) if done != Some(channel) => {
            let joiners = waiting.get(Awaited::Channel(channel));
            judge_all(listed, waiting, network, joiners);
        }
        _ => {}
    }
}

// The same for each of these processes.
fn renew_all(
    listed: &mut CountedBits,
    waiting: &WaitingLists,
    network: &Network<'_>,
    pids: &[u32],
    done: Option<NameId>,
)
    requires there { AreBelow (length network.now.state.machines) pids.now }
    requires places { length listed.old ≡ length network.now.state.machines }
    requires lists { ListsAll network.now.endpoints network.now.capacity network.now.state waiting.now }
    ensures { Renews network.now.endpoints network.now.capacity network.now.state done listed.old pids.now listed.new }
{
    for pid in pids {
        renew(listed, waiting, network, *pid, done);
    }
}
