//! Why a function wasn't added to a table.

use thiserror::Error;

/// Why a function wasn't added.
#[derive(Clone, Copy, Debug, PartialEq, Eq, Error)]
pub enum AddFault {
    /// A function of this name is there.
    #[error("a host function of this name is there already")]
    Twice,
    /// There was no memory for one more.
    #[error("out of memory")]
    Memory,
}
