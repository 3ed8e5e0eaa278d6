//! Where sessions stand.

ghost use Rattle.std.specs.Prelude.{◌≡◌, ◌++◌, option_copied, Some, OnOk};
ghost use Rattle.std.specs.Option.{option_to_list};
ghost use Rattle.typing_rules.specs.Environment.{standing_of, step_in, moved, moved_one, opened};

use crate::declared::{channel_of, protocol_of, state_of};
use chor_base::{Memory, NameId};
use chor_tree::{File, ProtoStep};
use std::marker::Model;

/// A session, its protocol, and the state of that in which it is.
#[derive(Clone, Copy)]
pub struct Standing {
    pub session: NameId,
    pub protocol: NameId,
    pub state: NameId,
}

impl Model for Standing {
    ghost use Rattle.typing_rules.specs.declared.standings.Standing.{Standing as Stands};

    ghost Value = { Stands };

    ghost view = { λ s. record { session = s.session; protocol = s.protocol; state = s.state } };

    ghost inverse = { λ s. record { session = s.session; protocol = s.protocol; state = s.state } };
}

impl Standing {
    // The same session in another state, where it is this one.
    fn moved(self, session: NameId, state: NameId) -> Standing
        ensures { result ≡ moved_one session state self }
    {
        if self.session == session {
            Standing {
                session: self.session,
                protocol: self.protocol,
                state,
            }
        } else {
            self
        }
    }

    // The step of the state in which the session is.
    pub fn step(self, file: &File) -> Option<&ProtoStep>
        ensures { option_copied result ≡ step_in file.now (Some self) }
    {
        let protocol = protocol_of(file, self.protocol)?;
        let state = state_of(protocol.states.as_slice(), self.state)?;
        Some(&state.step)
    }
}

// Where a session stands, if it is in scope.
pub fn standing_of(standings: &[Standing], session: NameId) -> Option<Standing>
    ensures { result ≡ standing_of standings.now session }
{
    for standing in standings {
        if standing.session == session {
            return Some(*standing);
        }
    }
    None
}

// The step of the state in which a session is.
pub fn step_at<'a>(file: &'a File, standings: &[Standing], session: NameId) -> Option<&'a ProtoStep>
    ensures { option_copied result ≡ step_in file.now (standing_of standings.now session) }
{
    let standing = standing_of(standings, session)?;
    standing.step(file)
}

// The session is in another state.
pub fn set_state(standings: &mut Vec<Standing>, session: NameId, state: NameId)
    ensures { standings.new.items ≡ moved standings.old.items session state }
{
    for standing in standings.iter_mut() {
        *standing = standing.moved(session, state);
    }
}

// A new session of a channel joins those in scope.
pub fn begin(
    standings: &mut Vec<Standing>,
    file: &File,
    channel: NameId,
    session: NameId,
) -> Result<(), Memory>
    ensures { OnOk result (standings.new.items ≡ standings.old.items ++ opened file.now channel session) }
{
    if let Some(standing) = opened(file, channel, session) {
        standings.push(standing)?;
    }
    Ok(())
}

// A new session of a channel, in the first state of its protocol.
fn opened(file: &File, channel: NameId, session: NameId) -> Option<Standing>
    ensures { option_to_list result ≡ opened file.now channel session }
{
    let service = channel_of(file, channel)?;
    let protocol = protocol_of(file, service.protocol.name)?;
    let first = protocol.states.as_slice().first()?;
    Some(Standing {
        session,
        protocol: service.protocol.name,
        state: first.name.name,
    })
}
