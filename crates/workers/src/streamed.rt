//! What comes of a run whose lines are written while it is made.

use crate::running::Report;

/// What came of a run whose lines were written while workers made it.
#[derive(Drop)]
pub enum Streamed {
    /// The run was made, and all its lines were written.
    Done(Report),
    /// Writing failed.
    Failed,
    /// Memory ran out.
    Memory,
}
