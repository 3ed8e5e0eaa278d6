//! The gate that stands open.

use crate::outside::Gate;

/// A gate that holds nobody back: it returns at once.
#[derive(Clone, Copy, PartialEq, Eq)]
pub struct OpenGate;

impl Gate for OpenGate {
    fn before(&self, _worker: u32, _turn: u64) {}
}
