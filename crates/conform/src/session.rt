//! One session of a log.

ghost use Rattle.std.specs.Prelude.{◌≡◌, IfOk, slice_get, slice_set};
ghost use Rattle.std.proofs.Math.ListN.{replicate};

use chor_base::Memory;
use std::alloc::Global;
use std::marker::Model;

// A session: the number of its protocol, and for each role of that the number of its type's state.
#[derive(Drop)]
pub struct Session {
    protocol: u32,
    states: Vec<u32>,
}

impl Model for Session {
    ghost use Rattle.conform.specs.Sessions.{SessionView};

    ghost Value = { SessionView };

    ghost view = { λ a. record { protocol = a.protocol; states = a.states.items } };
}

impl Session {
    // A session of a protocol with so many roles, each at the first state of its type.
    pub fn new(alloc: Global, protocol: u32, roles: usize) -> Result<Session, Memory>
        ensures { IfOk result (λ session. session ≡ record { protocol = protocol; states = replicate roles 0 }) }
    {
        let states = vec![in alloc; 0; roles]?;
        Ok(Session { protocol, states })
    }

    // The number of its protocol.
    pub fn protocol(&self) -> usize
        ensures { result ≡ self.now.protocol }
    {
        self.protocol as usize
    }

    // The state at which the role at a place stands.
    pub fn state(&self, place: usize) -> Option<u32>
        ensures { result ≡ slice_get self.now.states place }
    {
        self.states.get(place).copied()
    }

    // The role at a place goes on to a state.
    pub fn go(&mut self, place: usize, state: u32)
        ensures { self.new ≡ record self.old { states = slice_set self.old.states place state } }
    {
        if place < self.states.len() {
            self.states[place] = state;
        }
    }
}
