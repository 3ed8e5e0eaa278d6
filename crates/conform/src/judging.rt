//! Logs that are judged.

ghost use Rattle.conform.specs.Judged.{IsFit, Conforms, Closes};
ghost use Rattle.conform.specs.Steps.{IsJudged};

use crate::fault::ConformFault;
use crate::progress::Progress;
use chor_base::Event;
use chor_tree::File;
use std::alloc::Global;

// How far the sessions of these events have come, if they conform.
fn judged(alloc: Global, file: &File, events: &[Event]) -> Result<Progress, ConformFault>
    requires { IsFit file.now }
    ensures { IsJudged file.now events.now result }
{
    let mut progress = Progress::new(alloc, file)?;
    for (place, event) in events.iter().enumerate() {
        if !progress.follow(file, event)? {
            return Err(ConformFault::Astray(place as u64 + 1));
        }
    }
    Ok(progress)
}

/// Whether events conform to the protocols of a file, role by role. `Astray` tells the number, from 1,
/// of the first event that may not follow those before it. It never answers `Closed`.
pub fn conform(alloc: Global, file: &File, events: &[Event]) -> Result<(), ConformFault>
    requires { IsFit file.now }
    ensures { Conforms file.now events.now result }
{
    judged(alloc, file, events)?;
    Ok(())
}

/// Whether events conform and have ended: in each session each role has done all that it has to do.
/// `Closed` tells that they conform and that some role has more to do.
pub fn closed(alloc: Global, file: &File, events: &[Event]) -> Result<(), ConformFault>
    requires { IsFit file.now }
    ensures { Closes file.now events.now result }
{
    let progress = judged(alloc, file, events)?;
    if progress.has_ended(file) {
        Ok(())
    } else {
        Err(ConformFault::Closed)
    }
}
