//! What workers share.

ghost use Rattle.std.specs.Prelude.{◌≡◌};
ghost use Rattle.endpoint_code.specs.Faults.{IsFaultless};
ghost use Rattle.crew.specs.Crews.{entry_worker};
ghost use Rattle.workers.specs.declared.origin.Origin.{Origin as AnyOrigin};
ghost use Rattle.workers.specs.Turns.{GoesOn, Follows, CatchesUp, UnlessEnds};

use chor_base::Entry;
use crew::Crew;
use endpoint_code::Endpoints;
use turn_lock::Told;

/// What a worker does after its turn.
#[derive(Clone, Copy, PartialEq, Eq)]
pub enum Next {
    /// It made events, and goes on.
    Goes,
    /// It made none, and waits until another has made some.
    Waits,
    /// It ends: nothing is left to do for it.
    Ends,
}

/// A run that workers share, of which each changes it in its turn.
pub trait Shared: Told {
    /// Where the run comes from, by the origin of the value.
    ghost about: { Self.Origin → AnyOrigin };

    /// A turn of the worker that has these processes.
    fn turn(&mut self, crew: &mut Crew, endpoints: &Endpoints) -> Next
        requires faultless { IsFaultless endpoints.now }
        requires endpoints { (about (Self.origin self.old)).endpoints ≡ endpoints.now }
        requires behind { CatchesUp (about (Self.origin self.old)) (Self.history self.old) crew.old }
        ensures origin { Self.origin self.new ≡ Self.origin self.old }
        ensures history { GoesOn (entry_worker crew.old) (Self.history self.old) (Self.history self.new) }
        ensures worker { UnlessEnds result (entry_worker crew.new ≡ entry_worker crew.old) }
        ensures follows { UnlessEnds result (Follows (about (Self.origin self.old)) (Self.history self.new) crew.new) };

    /// Memory ran out, so that all workers are to end.
    fn stop(&mut self)
        ensures origin { Self.origin self.new ≡ Self.origin self.old }
        ensures history { Self.history self.new ≡ Self.history self.old };

    /// The events so far.
    fn entries(&self) -> &[Entry]
        ensures { result.now ≡ Self.history self.now };
}
