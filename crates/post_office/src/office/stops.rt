//! The mark of an office one of whose workers ran out of memory.

ghost use Rattle.std.specs.Prelude.{◌≡◌, true};

use super::Office;

impl Office<'_> {
    /// Marks the office as stopped because memory ran out.
    pub fn stop(&mut self)
        ensures { self.new ≡ record self.old { stopped = true } }
    {
        self.ledger.stopped = true;
    }

    /// Whether the office is marked as stopped.
    pub fn stopped(&self) -> bool
        ensures { result ≡ self.now.stopped }
    {
        self.ledger.stopped
    }
}
