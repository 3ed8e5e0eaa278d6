//! What holds of the capacities of files.

ghost use Rattle.simulation.specs.Capacity.{EmptyQueuesHaveRoom, PlainFilesHaveNoCapacity};

/// Under the capacity of each file there is room in an empty queue, and a file without a header has no
/// capacity.
#[tactic(auto, using(crate::proofs::Capacity::empty_queues_have_room, crate::proofs::Capacity::plain_files_have_none))]
pub fn capacities_leave_room()
    ensures room { EmptyQueuesHaveRoom }
    ensures plain { PlainFilesHaveNoCapacity }
{}
