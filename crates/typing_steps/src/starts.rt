//! Starts of sessions.

ghost use Rattle.std.specs.Prelude.{◌≡◌, ◌++◌, OnOk};
ghost use Rattle.delegation.specs.Checks.{IsJudged};
ghost use Rattle.delegation.specs.Owners.{Lacks, start_check};
ghost use Rattle.typing_steps.specs.Known.{environment_of};
ghost use Rattle.typing_steps.specs.Starts.{with_start};

use crate::known::Known;
use crate::standings::begin;
use chor_base::NameId;
use chor_tree::{File, Part};
use delegation::OwnFault;
use std::alloc::Global;

// A start of a session of a channel, by its active and its new processes.
#[derive(Clone, Copy)]
pub struct Start<'a> {
    pub channel: NameId,
    pub session: NameId,
    pub active: &'a [Part],
    pub serve: &'a [Part],
}

impl Known {
    // Judges a start, and goes past it.
    pub(crate) fn start(
        &mut self,
        alloc: Global,
        file: &File,
        start: Start<'_>,
    ) -> Result<(), OwnFault>
        requires { Lacks start.session (environment_of self.old).owners }
        ensures rule { IsJudged (start_check (start.entry.active.now ++ start.entry.serve.now)) result }
        ensures ok { OnOk result (environment_of self.new ≡ with_start file.now (environment_of self.old) start.entry) }
    {
        self.owners
            .start(alloc, start.session, start.active, start.serve)?;
        begin(&mut self.standings, file, start.channel, start.session)?;
        self.sorts.clear(start.serve)?;
        Ok(())
    }
}
