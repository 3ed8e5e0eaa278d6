//! How a run stands.

ghost use Rattle.std.specs.Prelude.{◌≡◌, length};
ghost use Rattle.chor_base.specs.declared.event.Why.TheVariants.{Empty};
ghost use Rattle.endpoint_code.specs.Network.{channel_of};
ghost use Rattle.post_office.specs.Kept.{IsKept};
ghost use Rattle.post_office.specs.Standings.{is_ended, still_holds, cause_of, all_rest, first_resting, standing_of, IsTrueAfter, role_of, born_of, absent_posted};

use super::Office;
use crate::desk::Desk;
use crate::parts::channel_named;
use crate::post::{Post, Standing};
use chor_base::{Event, NameId, Why};

// Whether a process is posted as ended.
fn has_ended(desk: &Desk) -> bool
    ensures { result ≡ is_ended desk.now.post }
{
    match desk.post {
        Post::Ended => true,
        Post::Busy | Post::Joining(_, _) | Post::Waiting(_) => false,
    }
}

// The role of a process in a start, if it has a part in it.
fn role_in(parts: &[(NameId, u32)], pid: u32) -> Option<NameId>
    ensures { result ≡ role_of parts.now pid }
{
    for part in parts {
        if part.1 == pid {
            return Some(part.0);
        }
    }
    None
}

impl Office<'_> {
    /// How many processes there are, which is the number of the next one.
    pub fn count(&self) -> u32
        ensures { result ≡ length self.now.desks }
    {
        self.desks.len() as u32
    }

    /// The session, channel and role of the start that made a process. `None` where it is there from
    /// the beginning, and where there is no such process.
    pub fn born(&self, pid: u32) -> Option<(u32, NameId, NameId)>
        ensures { result ≡ born_of self.now pid }
    {
        if (pid as usize) < self.endpoints.processes.as_slice().len() {
            return None;
        }
        for entry in &self.ledger.history {
            if let Event::Start {
                channel,
                sid,
                ref parts,
            } = entry.event
            {
                if let Some(role) = role_in(parts.as_slice(), pid) {
                    return Some((sid, channel, role));
                }
            }
        }
        None
    }

    // Whether a queue is empty.
    fn is_empty(&self, sid: u32, from: NameId, to: NameId) -> bool
        ensures { result ≡ still_holds self.now (Empty sid from to) }
    {
        self.ledger.queues.first(sid, from, to).is_none()
    }

    // Whether the cause of a post is still true of the queues.
    fn holds(&self, why: Why) -> bool
        ensures { result ≡ still_holds self.now why }
    {
        match why {
            Why::Empty(sid, from, to) => self.is_empty(sid, from, to),
            Why::Wrong(sid, from, to) => !self.is_empty(sid, from, to),
            Why::Full(sid, from, to) => self.full(sid, from, to),
            Why::Absent(_, _) => false,
        }
    }

    // The first other active role of a channel in which no process is posted as joining.
    fn lacks(&self, pid: u32, channel: NameId, own: NameId) -> Option<Why>
        ensures { result ≡ absent_posted self.now pid channel own (channel_of self.now.endpoints.channels channel) }
    {
        let found = channel_named(self.endpoints.channels.as_slice(), channel)?;
        let role = self.absent(pid, channel, own, found.active.as_slice())?;
        Some(Why::Absent(channel, role))
    }

    // The cause by which a process can't go on, by its post.
    fn cause(&self, pid: u32, post: Post) -> Option<Why>
        ensures { result ≡ cause_of self.now pid post }
    {
        match post {
            Post::Busy | Post::Ended => None,
            Post::Waiting(why) => { if self.holds(why) { Some(why) } else { None } }
            Post::Joining(channel, own) => self.lacks(pid, channel, own),
        }
    }

    // Whether each process is posted as ended or can't go on.
    fn all_rest(&self) -> bool
        ensures { result ≡ all_rest self.now 0 self.now.desks }
    {
        for (pid, desk) in self.desks.iter().enumerate() {
            if !has_ended(desk) && self.cause(pid as u32, desk.post).is_none() {
                return false;
            }
        }
        true
    }

    // The first process that isn't posted as ended, with its cause.
    fn first_resting(&self) -> Option<(u32, Option<Why>)>
        ensures first { result ≡ first_resting self.now 0 self.now.desks }
        ensures kept { IsKept self.now }
    {
        for (pid, desk) in self.desks.iter().enumerate() {
            if !has_ended(desk) {
                return Some((pid as u32, self.cause(pid as u32, desk.post)));
            }
        }
        None
    }

    /// How the run stands, by what is posted.
    pub fn standing(&self) -> Standing
        ensures posted { result ≡ standing_of self.now }
        ensures after { IsTrueAfter self.now result }
    {
        if !self.all_rest() {
            return Standing::Going;
        }
        match self.first_resting() {
            None => Standing::Ended,
            Some((_, None)) => Standing::Going,
            Some((pid, Some(why))) => Standing::Stuck(pid, why),
        }
    }
}
