//! What is posted of processes.

ghost use Rattle.std.specs.Prelude.{◌≡◌, IsOk};
ghost use Rattle.post_office.specs.Views.{joined_at};
ghost use Rattle.post_office.specs.Answers.{posted};
ghost use Rattle.post_office.specs.Kept.{CanPost};

use super::Office;
use crate::desk::{Desk, joined, set_desk};
use crate::post::Post;
use chor_base::Memory;

impl Office<'_> {
    /// Posts what a process is doing. It has then taken its last start over.
    pub fn board(&mut self, pid: u32, post: Post) -> Result<(), Memory>
        requires { CanPost self.old pid post }
        ensures posted { self.new ≡ posted self.old pid post }
        ensures ok { IsOk result }
    {
        set_desk(&mut self.desks, pid, Desk { post, joined: None });
        Ok(())
    }

    /// The session of a process's last start that it hasn't yet taken over.
    pub fn joined(&self, pid: u32) -> Option<u32>
        ensures { result ≡ joined_at self.now.desks pid }
    {
        joined(self.desks.as_slice(), pid)
    }
}
