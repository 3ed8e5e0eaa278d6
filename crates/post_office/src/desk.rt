//! What an office keeps of each process.

ghost use Rattle.std.specs.Prelude.{◌≡◌, ◌∷◌, [], slice_get, slice_set};
ghost use Rattle.post_office.specs.Views.{idle, made_busy, all_joined, joined_at, post_at};
ghost use Rattle.post_office.specs.Starts.{joins_as};

use crate::post::Post;
use chor_base::NameId;

// What a process was posted to be doing, and the session of its last start, if it hasn't taken that
// start over.
#[derive(Clone, Copy)]
pub struct Desk {
    pub post: Post,
    pub joined: Option<u32>,
}

impl Desk {
    // Nothing is known of the process.
    pub fn idle() -> Desk
        ensures { result ≡ idle }
    {
        Desk {
            post: Post::Busy,
            joined: None,
        }
    }

    // Whether the process is posted as joining a channel in a role.
    pub fn joins(&self, channel: NameId, role: NameId) -> bool
        ensures { result ≡ joins_as self.now.post channel role }
    {
        match self.post {
            Post::Joining(joined, own) => joined == channel && own == role,
            _ => false,
        }
    }
}

// The desk of a process, if it has one, is this one.
pub fn set_desk(desks: &mut Vec<Desk>, pid: u32, desk: Desk)
    ensures { desks.new.items ≡ slice_set desks.old.items pid desk }
{
    if (pid as usize) < desks.len() {
        desks[pid as usize] = desk;
    }
}

// What a process was posted to be doing.
pub fn posted(desks: &[Desk], pid: u32) -> Post
    ensures { result ≡ post_at desks.now pid }
{
    match desks.get(pid as usize) {
        Some(desk) => desk.post,
        None => Post::Busy,
    }
}

// The session of a process's last start, if it hasn't taken that over.
pub fn joined(desks: &[Desk], pid: u32) -> Option<u32>
    ensures { result ≡ joined_at desks.now pid }
{
    desks.get(pid as usize)?.joined
}

// A process is busy again.
pub fn make_busy(desks: &mut Vec<Desk>, pid: u32)
    ensures { desks.new.items ≡ made_busy (pid ∷ []) desks.old.items }
{
    let desk = Desk {
        post: Post::Busy,
        joined: joined(desks.as_slice(), pid),
    };
    set_desk(desks, pid, desk);
}

// The processes with these parts have joined a session.
pub fn join_all(desks: &mut Vec<Desk>, sid: u32, parts: &[(NameId, u32)])
    ensures { desks.new.items ≡ all_joined sid parts.now desks.old.items }
{
    for part in parts {
        let desk = Desk {
            post: Post::Busy,
            joined: Some(sid),
        };
        set_desk(desks, part.1, desk);
    }
}
