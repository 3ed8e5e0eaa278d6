//! Where a worker works.

use crew::Crew;
use turn_lock::{Seat, Told};

/// A worker's seat and number, its processes, how often the bell had rung when it last had the turn, how
/// many turns it has had, and whether it has ended. One that hasn't ended works on when it is asked again.
#[derive(Drop)]
pub struct Desk<T: Told> {
    pub seat: Seat<T>,
    pub number: u32,
    pub crew: Crew,
    pub heard: u64,
    pub turns: u64,
    pub ended: bool,
}
