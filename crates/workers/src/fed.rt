//! A run whose events are pushed into a stream.

ghost use Rattle.std.specs.Prelude.{◌≡◌, [], length, take};
ghost use Rattle.chor_stream.specs.Ends.{pushed_of};

use crate::next::{Next, Shared};
use chor_base::Entry;
use chor_stream::{Feed, Ring};
use crew::Crew;
use endpoint_code::Endpoints;
use turn_lock::Told;

/// Where a run comes from, and the ring that its events are pushed into. No value of it is made:
/// contracts alone speak of it.
pub struct FedOrigin<O> {
    pub of: O,
    pub ring: Ring,
}

/// A run, and the end of a stream into which its events are pushed while it is made.
#[derive(Drop)]
pub struct Fed<T: Told> {
    pub run: T,
    pub feed: Feed,
    ghost pushed: { pushed_of feed ≡ take (length (pushed_of feed)) (T.history run) },
}

impl<T: Told> Told for Fed<T> {
    type Origin = FedOrigin<T::Origin>;

    ghost use Rattle.std.specs.Prelude.{Some};
    ghost use Rattle.chor_stream.specs.Ends.{feed_ring};

    ghost origin = { λ fed. record { of = T.origin fed.run; ring = Some (feed_ring fed.feed) } };

    ghost history = { λ fed. T.history fed.run };
}

impl<T: Shared> Shared for Fed<T> {
    ghost about = { λ o. T.about o.of };

    fn turn(&mut self, crew: &mut Crew, endpoints: &Endpoints) -> Next {
        let next = self.run.turn(crew, endpoints);
        self.feed.push(self.run.entries());
        next
    }

    fn stop(&mut self) {
        self.run.stop();
    }

    fn entries(&self) -> &[Entry] {
        self.run.entries()
    }
}
