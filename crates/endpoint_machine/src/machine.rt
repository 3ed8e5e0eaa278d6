//! A process.

ghost use Rattle.std.specs.Prelude.{◌≡◌, ◌<◌, Some, true, false, OnOk, IfOk, IsOk, IsTrue, ◌↔◌, is_some};
ghost use Rattle.std.specs.Option.{option_copied};
ghost use Rattle.std.specs.FinMap as fin;
ghost use Rattle.chor_host.specs.Functions.{hosts_in, names_of};
ghost use Rattle.chor_host.specs.Tables.{functions_of};
ghost use Rattle.endpoint_code.specs.Faults.{AreApart, IsFaultless, IsFaultlessWith};
ghost use Rattle.endpoint_code.specs.Network.{MachineAnswers, node_at, procedure_of};
ghost use Rattle.endpoint_machine.specs.Bound.{IsBound};
ghost use Rattle.endpoint_machine.specs.Heads.{head_of, is_out, is_join};
ghost use Rattle.endpoint_machine.specs.declared.head.Head.TheVariants as head;
ghost use Rattle.endpoint_machine.specs.Acts.{asks_next, load_of, taking_of};
ghost use Rattle.endpoint_machine.specs.Steps.{begins, HasSent, HasTaken, Fits, HasJoined, HasActed, HasBeenTold, CanMake};
ghost use Rattle.endpoint_machine.specs.Views.{IsReserved, passes};
ghost use Rattle.endpoint_machine.specs.Places.{sessions_at, count_of, IsEven, StandsAt};

use crate::acts::fits_at;
use crate::head::Head;
use crate::same::{answer_in, is_same_alone};
use crate::sessions::{Binding, Bindings};
use chor_base::{Event, Load, Memory, NameId, Vars};
use chor_host::HostTable;
use endpoint_code::{CodeId, CodeNode, Endpoints, Procedure};
use std::alloc::Global;
use std::marker::Model;
use std::mem::swap;

/// A process of an endpoint program: where it stands, its variables and its sessions.
pub struct Machine {
    pub(crate) number: u32,
    pub(crate) at: CodeId,
    pub(crate) vars: Vars,
    pub(crate) sessions: Bindings,
    // Room for the sessions beyond a call.
    pub(crate) beyond: Bindings,
    // Where the procedure stands that the process calls here, or has called last.
    called: usize,
}

impl Drop for Machine {
    fn drop(self) {
        let Machine {
            number: _,
            at: _,
            vars: _,
            sessions: _,
            beyond: _,
            called: _,
        } = self;
    }
}

impl Model for Machine {
    ghost use Rattle.std.specs.Coded.{codes};
    ghost use Rattle.std.specs.FinMap as fin;
    ghost use Rattle.endpoint_machine.specs.Views.{MachineView};

    ghost Value = { MachineView };

    ghost coded = { Prim.hlevel (codes, fin.code) };

    ghost view = { λ a. record { number = a.number; machine = record { at = a.at; vars = a.vars.map; sessions = a.sessions.map }; room = record { variables = a.vars.spare; sessions = a.sessions.spare; beyond = a.beyond.spare } } };
}

// The sessions that a call passes, under the names that its procedure has for them.
#[derive(Clone, Copy)]
pub(crate) struct Passing<'e> {
    pub(crate) params: &'e [NameId],
    pub(crate) names: &'e [NameId],
}

// A node that is no call, and the call that led there.
#[derive(Clone, Copy)]
struct Place<'e> {
    node: &'e CodeNode,
    call: Option<Passing<'e>>,
}

// The code of a procedure for a parameter.
fn procedure_named(procedures: &[Procedure], name: NameId, param: NameId) -> Option<&Procedure>
    ensures { option_copied result ≡ procedure_of procedures.now name param }
{
    for procedure in procedures {
        if procedure.name == name && procedure.param == param {
            return Some(procedure);
        }
    }
    None
}

// The same where it may well stand at this place.
fn procedure_at(
    procedures: &[Procedure],
    place: usize,
    name: NameId,
    param: NameId,
) -> Option<&Procedure>
    requires { AreApart procedures.now }
    ensures { option_copied result ≡ procedure_of procedures.now name param }
{
    match procedures.get(place) {
        Some(procedure) if procedure.name == name && procedure.param == param => Some(procedure),
        _ => procedure_named(procedures, name, param),
    }
}

// The place of the code of a procedure for a parameter, not before another place.
fn place_from(
    procedures: &[Procedure],
    first: usize,
    name: NameId,
    param: NameId,
) -> Option<usize> {
    for place in first..procedures.len() {
        let procedure = &procedures[place];
        if procedure.name == name && procedure.param == param {
            return Some(place);
        }
    }
    None
}

impl Machine {
    // The node at which the process stands, through at most one call.
    fn place<'e>(&self, endpoints: &'e Endpoints) -> Place<'e>
        requires faultless { IsFaultless endpoints.now }
        requires bound { IsBound endpoints.now self.now.machine }
        ensures stands { StandsAt endpoints.now self.now.machine result.node.now (sessions_at result.call self.now.machine.sessions) }
        ensures call { count_of result.call ≡ passes (node_at endpoints.now self.now.machine.at) }
        ensures even { IsEven result.call }
    {
        let node = endpoints.code.nodes.at(self.at.0 as usize);
        let CodeNode::Call(name, param, names) = node else {
            return Place { node, call: None };
        };
        let procedures = endpoints.procedures.as_slice();
        let Some(procedure) = procedure_at(procedures, self.called, *name, *param) else {
            unreachable!()
        };
        let call = Passing {
            params: procedure.sessions.as_slice(),
            names: names.as_slice(),
        };
        Place {
            node: endpoints.code.nodes.at(procedure.body.0 as usize),
            call: Some(call),
        }
    }

    // What a session name stands for beyond the call, if there is one.
    pub(crate) fn session(&self, call: Option<Passing>, name: NameId) -> Option<(u32, NameId)>
        requires { IsEven call }
        ensures { result ≡ fin.get (sessions_at call.entry self.now.machine.sessions) name.0 }
    {
        match call {
            Some(call) => self.sessions.get_passed(call.params, call.names, name),
            None => self.sessions.get(name),
        }
    }

    // Goes through the call, if there is one. Most often a procedure calls itself with its own session,
    // and then no memory is touched.
    fn enter(&mut self, call: Option<Passing>)
        requires even { IsEven call }
        requires sessions { 0 < self.old.room.sessions }
        requires beyond { count_of call < self.old.room.beyond }
        ensures number { self.new.number ≡ self.old.number }
        ensures at { self.new.machine.at ≡ self.old.machine.at }
        ensures vars { self.new.machine.vars ≡ self.old.machine.vars }
        ensures sessions { self.new.machine.sessions ≡ sessions_at call.entry self.old.machine.sessions }
        ensures variables { self.new.room.variables ≡ self.old.room.variables }
        ensures room { 0 < self.new.room.sessions }
    {
        if let Some(call) = call {
            if self.sessions.is_kept(call.params, call.names) {
                return;
            }
            self.beyond.pass(call.params, call.names, &self.sessions);
            swap(&mut self.sessions, &mut self.beyond);
        }
    }

    // Where the process stands at a call now, notes the place of the procedure, which most often
    // comes after the one that it called before.
    fn look_ahead(&mut self, endpoints: &Endpoints)
        ensures { self.new ≡ self.old }
    {
        let procedures = endpoints.procedures.as_slice();
        let Some(CodeNode::Call(name, param, _)) = endpoints
            .code
            .nodes
            .as_slice()
            .get(self.at.0 as usize)
        else {
            return;
        };
        let place = match place_from(procedures, self.called, *name, *param) {
            Some(place) => Some(place),
            None => place_from(procedures, 0, *name, *param),
        };
        if let Some(place) = place {
            self.called = place;
        }
    }

    /// A process at a body, with no variable set and at most one session.
    pub fn new(
        alloc: Global,
        number: u32,
        body: CodeId,
        first: Option<Binding>,
    ) -> Result<Machine, Memory>
        ensures number { IfOk result (λ machine. machine.number ≡ number) }
        ensures machine { IfOk result (λ machine. machine.machine ≡ begins body first) }
    {
        let mut sessions = Bindings::new(alloc);
        if let Some(binding) = first {
            sessions.reserve(1)?;
            sessions.set(binding.session, binding.sid, binding.role);
        }
        Ok(Machine {
            number,
            at: body,
            vars: Vars::new(alloc),
            sessions,
            beyond: Bindings::new(alloc),
            called: 0,
        })
    }

    /// The number of the process.
    pub fn number(&self) -> u32
        ensures { result ≡ self.now.number }
    {
        self.number
    }

    /// The next action of the process, through at most one call. It takes no memory.
    pub fn head(&self, endpoints: &Endpoints) -> Head
        requires faultless { IsFaultless endpoints.now }
        requires bound { IsBound endpoints.now self.now.machine }
        ensures { head_of endpoints.now self.now.machine ≡ Some result }
    {
        let place = self.place(endpoints);
        self.head_at(place.node, place.call)
    }

    /// Takes memory for the next event of the process. The room lasts until that event.
    pub fn reserve(&mut self, endpoints: &Endpoints) -> Result<(), Memory>
        requires faultless { IsFaultless endpoints.now }
        requires bound { IsBound endpoints.now self.old.machine }
        ensures number { self.new.number ≡ self.old.number }
        ensures machine { self.new.machine ≡ self.old.machine }
        ensures ok { OnOk result (IsReserved endpoints.now self.new) }
        ensures kept { IsReserved endpoints.now self.old → IsReserved endpoints.now self.new }
        ensures succeeds { IsReserved endpoints.now self.old → IsOk result }
    {
        let beyond = match self.place(endpoints).call {
            Some(call) => call.names.len(),
            None => 0,
        };
        self.vars.reserve()?;
        self.sessions.reserve(1)?;
        self.beyond.reserve(beyond + 1)
    }

    /// What the process sends next. It takes no memory.
    pub fn outgoing(&self, endpoints: &Endpoints) -> Load
        requires faultless { IsFaultless endpoints.now }
        requires bound { IsBound endpoints.now self.now.machine }
        requires sends { is_out (head_of endpoints.now self.now.machine) ≡ true }
        ensures { load_of endpoints.now self.now.machine ≡ Some result }
    {
        let place = self.place(endpoints);
        self.load_at(place.node, place.call)
    }

    /// Goes past what the process sends. It takes no memory.
    pub fn sent(&mut self, endpoints: &Endpoints)
        requires faultless { IsFaultless endpoints.now }
        requires bound { IsBound endpoints.now self.old.machine }
        requires sends { is_out (head_of endpoints.now self.old.machine) ≡ true }
        requires room { IsReserved endpoints.now self.old }
        ensures number { self.new.number ≡ self.old.number }
        ensures bound { IsBound endpoints.now self.new.machine }
        ensures sent { HasSent endpoints.now self.old.number self.old.machine self.new.machine }
    {
        let place = self.place(endpoints);
        self.enter(place.call);
        self.send_at(place.node);
        self.look_ahead(endpoints);
    }

    /// Whether the process takes a load next. It takes no memory.
    pub fn fits(&self, endpoints: &Endpoints, load: Load) -> bool
        requires faultless { IsFaultless endpoints.now }
        requires bound { IsBound endpoints.now self.now.machine }
        ensures fits { result ≡ is_some (taking_of endpoints.now self.now.machine load) }
        ensures waits { Fits endpoints.now self.now.machine load result }
    {
        let place = self.place(endpoints);
        fits_at(place.node, load)
    }

    /// Takes a load. It takes no memory.
    pub fn receive(&mut self, endpoints: &Endpoints, load: Load)
        requires faultless { IsFaultless endpoints.now }
        requires bound { IsBound endpoints.now self.old.machine }
        requires fits { is_some (taking_of endpoints.now self.old.machine load) ≡ true }
        requires room { IsReserved endpoints.now self.old }
        ensures number { self.new.number ≡ self.old.number }
        ensures bound { IsBound endpoints.now self.new.machine }
        ensures taken { HasTaken endpoints.now self.old.number load self.old.machine self.new.machine }
    {
        let place = self.place(endpoints);
        self.enter(place.call);
        self.take_at(place.node, load);
        self.look_ahead(endpoints);
    }

    /// Joins a session of the channel and in the role of the head. It takes no memory.
    pub fn joined(&mut self, endpoints: &Endpoints, sid: u32)
        requires faultless { IsFaultless endpoints.now }
        requires bound { IsBound endpoints.now self.old.machine }
        requires joins { is_join (head_of endpoints.now self.old.machine) ≡ true }
        requires room { IsReserved endpoints.now self.old }
        ensures number { self.new.number ≡ self.old.number }
        ensures bound { IsBound endpoints.now self.new.machine }
        ensures joined { HasJoined endpoints.now sid self.old.machine self.new.machine }
    {
        let place = self.place(endpoints);
        self.enter(place.call);
        self.join_at(place.node, sid);
        self.look_ahead(endpoints);
    }

    /// Sets a variable, shows a value, decides or asks a host function, and tells the event. It
    /// takes no memory.
    pub fn local_step(&mut self, endpoints: &Endpoints, hosts: &HostTable) -> Event
        requires faultless { IsFaultlessWith (names_of (functions_of hosts.now)) endpoints.now }
        requires bound { IsBound endpoints.now self.old.machine }
        requires alone { head_of endpoints.now self.old.machine ≡ Some head.Local }
        requires room { IsReserved endpoints.now self.old }
        ensures number { self.new.number ≡ self.old.number }
        ensures bound { IsBound endpoints.now self.new.machine }
        ensures acted { HasActed endpoints.now (hosts_in endpoints.now.names (functions_of hosts.now)) self.old.number self.old.machine result self.new.machine }
    {
        let place = self.place(endpoints);
        let answer = self.answer_at(place.node, endpoints, hosts);
        let event = self.event_at(place.node, answer);
        self.enter(place.call);
        self.act_at(place.node, answer);
        self.look_ahead(endpoints);
        event
    }

    /// Goes past a host call, at which the process stands next, with an answer that its function may
    /// give. The function isn't called. It takes no memory.
    pub fn told(&mut self, endpoints: &Endpoints, hosts: &HostTable, value: i64)
        requires faultless { IsFaultless endpoints.now }
        requires bound { IsBound endpoints.now self.old.machine }
        requires asks { asks_next endpoints.now self.old.machine ≡ true }
        requires allowed { MachineAnswers (hosts_in endpoints.now.names (functions_of hosts.now)) endpoints.now (Some self.old.machine) value }
        requires room { IsReserved endpoints.now self.old }
        ensures number { self.new.number ≡ self.old.number }
        ensures bound { IsBound endpoints.now self.new.machine }
        ensures told { HasBeenTold endpoints.now (hosts_in endpoints.now.names (functions_of hosts.now)) self.old.number self.old.machine value self.new.machine }
    {
        let place = self.place(endpoints);
        self.enter(place.call);
        self.act_at(place.node, value);
        self.look_ahead(endpoints);
    }

    /// Whether the event is one that the process can make here by itself. It calls no host function, and
    /// takes no memory.
    pub fn may(&self, endpoints: &Endpoints, hosts: &HostTable, event: &Event) -> bool
        requires faultless { IsFaultlessWith (names_of (functions_of hosts.now)) endpoints.now }
        requires bound { IsBound endpoints.now self.now.machine }
        requires alone { head_of endpoints.now self.now.machine ≡ Some head.Local }
        ensures { IsTrue result ↔ CanMake endpoints.now (hosts_in endpoints.now.names (functions_of hosts.now)) self.now.number self.now.machine event.now }
    {
        let place = self.place(endpoints);
        let answer = answer_in(event);
        is_same_alone(&self.event_at(place.node, answer), event)
            && self.allows_at(place.node, endpoints, hosts, answer)
    }
}
