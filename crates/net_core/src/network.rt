//! The network.

ghost use Rattle.std.specs.Prelude.{◌≡◌, ◌<◌, [], length, IfOk, OnOk, OnErr, Some, None, true, false, ℕ, IsOk, not, ◌||◌, ◌==◌};
ghost use Rattle.chor_base.specs.Meaning.{Hosts};
ghost use Rattle.chor_host.specs.Functions.{hosts_in, names_of};
ghost use Rattle.chor_host.specs.Tables.{functions_of};
ghost use Rattle.endpoint_code.specs.Network.{first_state, channel_of};
ghost use Rattle.endpoint_code.specs.NetworkRuns.{all_ended, absent_among, absent_on, is_joined};
ghost use Rattle.endpoint_code.specs.Scheduled.{least_joiner};
ghost use Rattle.endpoint_code.specs.Faults.{IsFaultless, AsksKnown, is_listed};
ghost use Rattle.endpoint_machine.specs.declared.head.Head.TheVariants as head;
ghost use Rattle.net_core.specs.Views.{IsSame, IsReserved};
ghost use Rattle.net_core.specs.Steps.{HasSteppedBy, HasBegunBy, HasGrown, FitsMore, Answers, AnswersBy};
ghost use Rattle.session_starts.specs.Starts.{AllJoin, AreApart};
ghost use Rattle.net_core.specs.Starts.{partner_for, IsCast};
ghost use Rattle.net_core.specs.Shown.{MovesAlone};
ghost use Rattle.net_core.specs.Heads.{Shows, EachStands, ended_at, why_at, steps_at, is_listed_at, joins_in, leads_at, joins_at_all};

use crate::acts::{act, reserve};
use crate::answer::Step;
use crate::parts::standing_all;
use crate::standing::{has_ended, is_joining};
use chor_base::{Entry, Event, List, Memory, NameId, Why};
use chor_host::HostTable;
use endpoint_code::{Channel, Endpoints};
use endpoint_machine::{Head, Machine};
use post_office::{Ledger, append, channel_named};
use session_starts::start_session;
use std::alloc::Global;
use std::marker::Model;
use std::mem::replace;

/// The processes of endpoint programs, the queues between them, and the events so far.
#[derive(Drop)]
pub struct Network<'a> {
    pub(crate) alloc: Global,
    pub(crate) endpoints: &'a Endpoints,
    pub(crate) machines: Vec<Machine>,
    pub(crate) ledger: Ledger,
}

impl<'a> Model for Network<'a> {
    ghost use Rattle.net_core.specs.Views.{NetworkView, IsSound, network_of};

    ghost Value = { NetworkView };

    ghost use Rattle.endpoint_code.specs.contracts.endpoints.Endpoints as whole;
    ghost use Rattle.std.specs.Coded.{codes};
    ghost use Rattle.std.specs.FinMap as fin;

    ghost coded = { Prim.hlevel (codes, whole.the_row.coded, fin.code) };

    ghost view = { λ a. network_of a.endpoints.now a.machines.items a.ledger };

    ghost invariant = { λ a. IsSound a.endpoints.now a.machines.items };
}

impl<'a> Network<'a> {
    /// The first state: each process at its body, and no event yet. Each queue takes at most as many
    /// loads as the capacity says, if there is one.
    pub fn new(
        alloc: Global,
        endpoints: &'a Endpoints,
        capacity: Option<u32>,
    ) -> Result<Network<'a>, Memory>
        requires { IsFaultless endpoints.now }
        ensures endpoints { IfOk result (λ network. network.endpoints ≡ endpoints.now) }
        ensures capacity { IfOk result (λ network. network.capacity ≡ capacity) }
        ensures state { IfOk result (λ network. network.state ≡ first_state endpoints.now) }
        ensures history { IfOk result (λ network. network.history ≡ []) }
        ensures stopped { IfOk result (λ network. network.stopped ≡ false) }
    {
        let machines = standing_all(alloc, &endpoints.processes)?;
        Ok(Network {
            alloc,
            endpoints,
            machines,
            ledger: Ledger::new(alloc, capacity),
        })
    }

    /// The events so far.
    pub fn history(&self) -> &[Entry]
        ensures { result.now ≡ self.now.history }
    {
        self.ledger.history.as_slice()
    }

    /// Forgets the events so far. Those that come are counted from the first again, and have the memory
    /// of those that are forgotten.
    pub fn forget(&mut self)
        ensures endpoints { self.new.endpoints ≡ self.old.endpoints }
        ensures capacity { self.new.capacity ≡ self.old.capacity }
        ensures state { self.new.state ≡ self.old.state }
        ensures history { self.new.history ≡ [] }
        ensures stopped { self.new.stopped ≡ self.old.stopped }
    {
        self.ledger.history.clear();
    }

    /// Marks the network as stopped because memory ran out, so that all its workers end.
    pub fn stop(&mut self)
        ensures stopped { self.new.stopped ≡ true }
        ensures others { self.new ≡ record self.old { stopped = true } }
    {
        self.ledger.stopped = true;
    }

    /// Whether the network was stopped because memory ran out.
    pub fn stopped(&self) -> bool
        ensures { result ≡ self.now.stopped }
    {
        self.ledger.stopped
    }

    /// The events so far, of a network that makes no more.
    pub fn into_history(self) -> Vec<Entry>
        ensures { result.items ≡ self.entry.history }
    {
        let ledger = self.ledger;
        ledger.history
    }

    // How many loads each queue takes at most, if that is declared.
    pub(crate) fn capacity(&self) -> Option<u32>
        ensures { result ≡ self.now.capacity }
    {
        self.ledger.capacity
    }

    // This network. One without processes comes in its place.
    pub(crate) fn take(&mut self) -> Network<'a>
        ensures { result ≡ self.old }
    {
        let nobody = Network {
            alloc: self.alloc,
            endpoints: self.endpoints,
            machines: Vec::new(self.alloc),
            ledger: Ledger::new(self.alloc, self.ledger.capacity),
        };
        replace(self, nobody)
    }

    // The next action of a process.
    pub(crate) fn head(&self, pid: u32) -> Head
        requires { pid < length self.now.state.machines }
        ensures { Shows self.now.endpoints self.now.state pid result }
    {
        let machine = &self.machines[pid as usize];
        machine.head(self.endpoints)
    }

    /// How many processes there are.
    pub fn count(&self) -> u32
        ensures count { result ≡ length self.now.state.machines }
        ensures stand { EachStands self.now.endpoints self.now.state }
    {
        self.machines.len() as u32
    }

    // Whether a process has ended.
    pub(crate) fn ended(&self, pid: u32) -> bool
        requires { pid < length self.now.state.machines }
        ensures { result ≡ ended_at self.now.endpoints self.now.state pid }
    {
        has_ended(self.head(pid))
    }

    /// Whether every process has ended.
    pub fn finished(&self) -> bool
        ensures { result ≡ all_ended self.now.endpoints self.now.state.machines }
    {
        for pid in 0..self.count() {
            if !self.ended(pid) {
                return false;
            }
        }
        true
    }

    // Whether a process stands where it joins a channel in a role.
    pub(crate) fn joins(&self, pid: u32, channel: NameId, role: NameId) -> bool
        requires { pid < length self.now.state.machines }
        ensures { result ≡ joins_in self.now.endpoints self.now.state pid channel role }
    {
        match self.head(pid) {
            Head::Join(joined, own) => joined == channel && own == role,
            _ => false,
        }
    }

    // The least process that joins a channel in a role.
    fn joiner(&self, channel: NameId, role: NameId) -> Option<u32>
        ensures { result ≡ least_joiner self.now.endpoints 0 self.now.state.machines channel role }
    {
        for pid in 0..self.count() {
            if self.joins(pid, channel, role) {
                return Some(pid);
            }
        }
        None
    }

    // Whether nobody joins in a role other than a process's own.
    #[tactic(auto, using(crate::proofs::Heads::joined_least))]
    fn is_missing(&self, channel: NameId, own: NameId, role: NameId) -> bool
        ensures { result ≡ not ((role.0 == own.0) || is_joined self.now.endpoints self.now.state.machines channel role) }
    {
        role != own && self.joiner(channel, role).is_none()
    }

    // The first active role of a channel, other than a process's own, that nobody joins.
    pub(crate) fn absent(&self, channel: NameId, own: NameId) -> Option<Why>
        ensures { result ≡ absent_on self.now.endpoints self.now.state.machines channel own (channel_of self.now.endpoints.channels channel) }
    {
        let roles = channel_named(self.endpoints.channels.as_slice(), channel)?
            .active
            .as_slice();
        for role in roles {
            if self.is_missing(channel, own, *role) {
                return Some(Why::Absent(channel, *role));
            }
        }
        None
    }

    /// Takes memory for the next event of a process, if that event isn't the start of a session.
    /// The room lasts until a call changes the network.
    pub fn reserve(&mut self, pid: u32) -> Result<(), Memory>
        requires { pid < length self.old.state.machines }
        ensures same { IsSame self.old self.new }
        ensures ok { OnOk result (IsReserved self.new pid) }
        ensures succeeds { IsReserved self.old pid → IsOk result }
    {
        self.reserve_for(pid, self.head(pid))
    }

    // The same for a process with this head.
    fn reserve_for(&mut self, pid: u32, head: Head) -> Result<(), Memory>
        requires there { pid < length self.old.state.machines }
        requires shows { Shows self.old.endpoints self.old.state pid head }
        ensures same { IsSame self.old self.new }
        ensures ok { OnOk result (IsReserved self.new pid) }
        ensures succeeds { IsReserved self.old pid → IsOk result }
    {
        let endpoints = self.endpoints;
        self.ledger.history.reserve(1)?;
        let machine = &mut self.machines[pid as usize];
        reserve(endpoints, machine, head, &mut self.ledger.queues)
    }

    // Makes the event of a process with this head that can step and doesn't join, as one of a worker.
    fn act(&mut self, worker: u32, pid: u32, head: Head, hosts: &HostTable)
        requires there { pid < length self.old.state.machines }
        requires shows { Shows self.old.endpoints self.old.state pid head }
        requires hosts { AsksKnown (is_listed (names_of (functions_of hosts.now)) self.old.endpoints) self.old.endpoints }
        requires steps { steps_at self.old.endpoints self.old.capacity self.old.state pid ≡ true }
        requires alone { joins_at_all self.old.endpoints self.old.state pid ≡ false }
        requires room { IsReserved self.old pid }
        ensures stepped { HasSteppedBy worker (hosts_in self.old.endpoints.names (functions_of hosts.now)) self.old pid self.new }
        ensures grown { HasGrown self.old self.new }
        ensures alone { MovesAlone self.old.state pid self.new.state }
    {
        let endpoints = self.endpoints;
        let machine = &mut self.machines[pid as usize];
        let event = act(endpoints, hosts, machine, head, &mut self.ledger.queues);
        append(&mut self.ledger.history, worker, event);
    }

    /// One step of a process. A start takes the least process that joins in each other active role.
    pub fn step(&mut self, pid: u32, hosts: &HostTable) -> Step
        requires there { pid < length self.old.state.machines }
        requires hosts { AsksKnown (is_listed (names_of (functions_of hosts.now)) self.old.endpoints) self.old.endpoints }
        requires fits { FitsMore self.old 1 }
        ensures { Answers (hosts_in self.old.endpoints.names (functions_of hosts.now)) self.old pid result self.new }
    {
        self.step_as(0, pid, hosts)
    }

    /// The same as an event of a worker.
    pub fn step_as(&mut self, worker: u32, pid: u32, hosts: &HostTable) -> Step
        requires there { pid < length self.old.state.machines }
        requires hosts { AsksKnown (is_listed (names_of (functions_of hosts.now)) self.old.endpoints) self.old.endpoints }
        requires fits { FitsMore self.old 1 }
        ensures { AnswersBy worker (hosts_in self.old.endpoints.names (functions_of hosts.now)) self.old pid result self.new }
    {
        let head = self.head(pid);
        if has_ended(head) {
            return Step::Ended;
        }
        if let Some(why) = self.waiting(pid, head) {
            return Step::Waits(why);
        }
        match self.go(worker, pid, head, hosts) {
            Ok(()) => Step::Did,
            Err(_) => Step::Memory,
        }
    }

    // The event of a process with this head that can step, as one of a worker.
    pub(crate) fn go(
        &mut self,
        worker: u32,
        pid: u32,
        head: Head,
        hosts: &HostTable,
    ) -> Result<(), Memory>
        requires there { pid < length self.old.state.machines }
        requires shows { Shows self.old.endpoints self.old.state pid head }
        requires hosts { AsksKnown (is_listed (names_of (functions_of hosts.now)) self.old.endpoints) self.old.endpoints }
        requires fits { FitsMore self.old 1 }
        requires steps { steps_at self.old.endpoints self.old.capacity self.old.state pid ≡ true }
        ensures ok { OnOk result (HasSteppedBy worker (hosts_in self.old.endpoints.names (functions_of hosts.now)) self.old pid self.new) }
        ensures grown { OnOk result (HasGrown self.old self.new) }
        ensures alone { OnOk result (joins_at_all self.old.endpoints self.old.state pid ≡ false → MovesAlone self.old.state pid self.new.state) }
        ensures room { OnErr result (IsReserved self.old pid → joins_at_all self.old.endpoints self.old.state pid ≡ true) }
        ensures same { OnErr result (IsSame self.old self.new) }
    {
        if is_joining(head) {
            return self.start(worker, pid, head);
        }
        self.reserve_for(pid, head)?;
        self.act(worker, pid, head, hosts);
        Ok(())
    }

    // The process that takes a part in a start that a process makes in its own role.
    fn partner(&self, pid: u32, channel: NameId, own: NameId, role: NameId) -> Option<u32>
        ensures { result ≡ partner_for self.now.endpoints self.now.state.machines channel pid own role }
    {
        if role == own {
            Some(pid)
        } else {
            self.joiner(channel, role)
        }
    }

    // Each role with its process, where a process joins in each.
    fn cast(
        &self,
        pid: u32,
        channel: NameId,
        own: NameId,
        roles: &[NameId],
    ) -> Result<List<(NameId, u32)>, Memory>
        requires { absent_among self.now.endpoints self.now.state.machines channel own roles.now ≡ None }
        ensures { IfOk result (λ parts. IsCast self.now.endpoints self.now.state.machines channel pid own roles.now parts) }
    {
        let mut parts = List::new(self.alloc);
        for role in roles {
            let Some(partner) = self.partner(pid, channel, own, *role) else {
                unreachable!()
            };
            parts.push((*role, partner))?;
        }
        Ok(parts)
    }

    // Starts a session on the channel that a process with this head joins, with the least partners, as
    // an event of a worker.
    fn start(&mut self, worker: u32, pid: u32, head: Head) -> Result<(), Memory>
        requires there { pid < length self.old.state.machines }
        requires shows { Shows self.old.endpoints self.old.state pid head }
        requires steps { steps_at self.old.endpoints self.old.capacity self.old.state pid ≡ true }
        requires joins { joins_at_all self.old.endpoints self.old.state pid ≡ true }
        requires fits { FitsMore self.old 1 }
        ensures ok { OnOk result ((hosts : Hosts) → HasSteppedBy worker hosts self.old pid self.new) }
        ensures grown { OnOk result (HasGrown self.old self.new) }
        ensures err { OnErr result (IsSame self.old self.new) }
    {
        let Head::Join(channel, own) = head else {
            unreachable!()
        };
        let endpoints = self.endpoints;
        let Some(found) = channel_named(endpoints.channels.as_slice(), channel) else {
            unreachable!()
        };
        let parts = self.cast(pid, channel, own, found.active.as_slice())?;
        self.begin(worker, found, parts)
    }

    // Starts a session on a channel with these processes, as an event of a worker.
    pub(crate) fn begin(
        &mut self,
        worker: u32,
        channel: &Channel,
        parts: List<(NameId, u32)>,
    ) -> Result<(), Memory>
        requires channel { channel_of self.old.endpoints.channels channel.now.name ≡ Some channel.now }
        requires joins { AllJoin self.old.endpoints self.old.state.machines channel.now.name parts }
        requires apart { AreApart parts }
        requires fits { FitsMore self.old 1 }
        ensures ok { OnOk result (HasBegunBy worker self.old channel.now parts self.new) }
        ensures err { OnErr result (IsSame self.old self.new) }
    {
        self.ledger.history.reserve(1)?;
        let sid = self.ledger.sid;
        let parts = start_session(self.endpoints, &mut self.machines, channel, sid, parts)?;
        self.ledger.sid = sid + 1;
        let event = Event::Start {
            channel: channel.name,
            sid,
            parts,
        };
        append(&mut self.ledger.history, worker, event);
        Ok(())
    }
}
