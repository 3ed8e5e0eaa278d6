//! Want of memory.

use std::alloc::{AllocError, AllocFailed};
use thiserror::Error;

/// There was no memory for what a call had to make.
#[derive(Clone, Copy, Debug, PartialEq, Eq, Error)]
#[error("out of memory")]
pub struct Memory;

impl From<AllocError> for Memory {
    fn from(_error: AllocError) -> Self {
        Memory
    }
}

impl<T: Drop> From<AllocFailed<T>> for Memory {
    fn from(_error: AllocFailed<T>) -> Self {
        Memory
    }
}
